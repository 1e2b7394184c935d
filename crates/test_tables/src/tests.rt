//! Addresses, pools, agendas, the graph and filters, through their public calls.

mod agendas;
mod filters;
mod graph;
mod nodes;
mod numbers;
mod pools;
mod texts;
