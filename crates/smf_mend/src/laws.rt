//! What holds of the lenient grammar, for all bytes.

ghost use Rattle.smf_mend.specs.Laws.{ForgivesSoftened, StrictIsLenient, LenientFileOrFault, OneLenientFile, OneLenientFault, NotBothLeniently, ReadsLenientFiles, ReadsLenientFaults};
ghost use Rattle.smf_mend.specs.Rows.{OverOthers, HighPrograms, NotForgiven, ToldForgiven};

/// Bit 7 is forgiven of a pair just where softening changes what is left.
pub fn forgives_softened()
    ensures { ForgivesSoftened }
{}

/// Each file of the strict grammar is the same file by the lenient one, and nothing is forgiven of it.
pub fn strict_is_lenient()
    ensures { StrictIsLenient }
{}

/// By the lenient grammar too, all bytes are one file or have one fault, and not both; reading them item by item
/// computes which.
pub fn one_lenient_reading()
    ensures some { LenientFileOrFault }
    ensures file { OneLenientFile }
    ensures fault { OneLenientFault }
    ensures apart { NotBothLeniently }
    ensures reads_files { ReadsLenientFiles }
    ensures reads_faults { ReadsLenientFaults }
{}

/// Running status behind a meta and an exclusive event, a program change whose data byte has bit 7 set, what is not
/// forgiven, and how what is forgiven is told.
pub fn worked_mends()
    ensures over_others { OverOthers }
    ensures high_programs { HighPrograms }
    ensures not_forgiven { NotForgiven }
    ensures told { ToldForgiven }
{}
