//! Why a command is refused.

ghost use Rattle.std.specs.Prelude.{◌≡◌, ◌≤◌, ◌↔◌, IsSome, IfSome, codes};

use std::fmt;

/// The reasons, with their numbers. Where several apply, the one with the lowest number is the reply.
#[derive(Clone, Copy, Debug, PartialEq, Eq)]
pub enum Refusal {
    NotOpen = 1,
    AlreadyOpen = 2,
    BadName = 3,
    BadSize = 4,
    BadRule = 5,
    NodeExists = 6,
    NoNode = 7,
    NoSender = 8,
    NoDest = 9,
    NotPermitted = 10,
    AlreadyConnected = 11,
    NotConnected = 12,
    SourcesFull = 13,
    Cycle = 14,
    QueueExists = 15,
    NotYours = 16,
    NoQueue = 17,
    QueueRunning = 18,
    QueueStopped = 19,
    NoFile = 20,
    DivisionDiffers = 21,
    BadTempo = 22,
    BadTime = 23,
    OutFull = 24,
}

impl Refusal {
    ghost use Rattle.seq_state.specs.Refusals.{number_of, refusal_name};

    /// 1 to 24, as a reply has it.
    pub fn number(self) -> u8
        ensures { result ≡ number_of self }
    {
        self as u8
    }

    /// The refusal with this number, if there is one.
    pub fn from_number(number: u8) -> Option<Refusal>
        ensures there { IsSome result ↔ ((1 ≤ number) × (number ≤ 24)) }
        ensures value { IfSome result (λ r. number_of r ≡ number) }
    {
        Some(match number {
            1 => Refusal::NotOpen,
            2 => Refusal::AlreadyOpen,
            3 => Refusal::BadName,
            4 => Refusal::BadSize,
            5 => Refusal::BadRule,
            6 => Refusal::NodeExists,
            7 => Refusal::NoNode,
            8 => Refusal::NoSender,
            9 => Refusal::NoDest,
            10 => Refusal::NotPermitted,
            11 => Refusal::AlreadyConnected,
            12 => Refusal::NotConnected,
            13 => Refusal::SourcesFull,
            14 => Refusal::Cycle,
            15 => Refusal::QueueExists,
            16 => Refusal::NotYours,
            17 => Refusal::NoQueue,
            18 => Refusal::QueueRunning,
            19 => Refusal::QueueStopped,
            20 => Refusal::NoFile,
            21 => Refusal::DivisionDiffers,
            22 => Refusal::BadTempo,
            23 => Refusal::BadTime,
            24 => Refusal::OutFull,
            _ => return None,
        })
    }

    /// Its name, as in `Cycle`.
    pub fn name(self) -> &'static str
        ensures { result.now ≡ refusal_name self }
    {
        match self {
            Refusal::NotOpen => "NotOpen",
            Refusal::AlreadyOpen => "AlreadyOpen",
            Refusal::BadName => "BadName",
            Refusal::BadSize => "BadSize",
            Refusal::BadRule => "BadRule",
            Refusal::NodeExists => "NodeExists",
            Refusal::NoNode => "NoNode",
            Refusal::NoSender => "NoSender",
            Refusal::NoDest => "NoDest",
            Refusal::NotPermitted => "NotPermitted",
            Refusal::AlreadyConnected => "AlreadyConnected",
            Refusal::NotConnected => "NotConnected",
            Refusal::SourcesFull => "SourcesFull",
            Refusal::Cycle => "Cycle",
            Refusal::QueueExists => "QueueExists",
            Refusal::NotYours => "NotYours",
            Refusal::NoQueue => "NoQueue",
            Refusal::QueueRunning => "QueueRunning",
            Refusal::QueueStopped => "QueueStopped",
            Refusal::NoFile => "NoFile",
            Refusal::DivisionDiffers => "DivisionDiffers",
            Refusal::BadTempo => "BadTempo",
            Refusal::BadTime => "BadTime",
            Refusal::OutFull => "OutFull",
        }
    }
}

/// As in `14 Cycle`.
impl fmt::Display for Refusal {
    ghost use Rattle.std.specs.Prelude.{Some};
    ghost use Rattle.seq_state.specs.Refusals.{refusal_text};

    ghost output = { λ r. Some (refusal_text r) };

    fn fmt<W: fmt::Write>(&self, f: &mut fmt::Formatter<W>) -> fmt::Result {
        let number = self.number();
        let name = self.name();
        write!(f, "{number} {name}")
    }
}
