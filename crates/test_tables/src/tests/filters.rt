//! Worked rules.

use bitflags::Flags;
use midi_wire::{Message, WireFault};
use route_filter::{Kinds, Rule, RuleArgs};
use std::alloc::Global;
use std::process::Abort;

/// Note on of channel 0, from note 60 to 72, an octave up.
const OCTAVE_UP: RuleArgs = RuleArgs {
    channels: 1,
    kinds: Kinds::NOTE_ON,
    low: 60,
    high: 72,
    shift: 12,
    channel: None,
};

/// All of channel 0, to channel 9.
const TO_CHANNEL_NINE: RuleArgs = RuleArgs {
    channels: 1,
    kinds: Kinds::ALL,
    low: 0,
    high: 127,
    shift: 0,
    channel: Some(9),
};

/// All messages, unchanged.
const OPEN: RuleArgs = RuleArgs {
    channels: 65535,
    kinds: Kinds::ALL,
    low: 0,
    high: 127,
    shift: 0,
    channel: None,
};

/// All of channel 9, unchanged.
const NINE: RuleArgs = RuleArgs {
    channels: 512,
    ..OPEN
};

/// All of channel 9, to channel 3.
const NINE_TO_THREE: RuleArgs = RuleArgs {
    channel: Some(3),
    ..NINE
};

/// A message, and what a rule makes of it: nothing, where it drops the message.
type Row = (&'static [u8], &'static [u8]);

/// Rules that follow one another, and what the rule that they are together makes of messages.
struct Case {
    name: &'static str,
    rules: &'static [RuleArgs],
    rows: &'static [Row],
}

const ALONE: &[Case] = &[
    Case {
        name: "an octave up",
        rules: &[OCTAVE_UP],
        rows: &[
            (&[0x90, 0x3C, 0x40], &[0x90, 0x48, 0x40]),
            (&[0x91, 0x3C, 0x40], &[]),
            (&[0x90, 0x3B, 0x40], &[]),
            (&[0x80, 0x3C, 0x40], &[]),
            (&[0xF8], &[]),
        ],
    },
    Case {
        name: "real time alone",
        rules: &[RuleArgs {
            kinds: Kinds::REAL_TIME,
            ..OCTAVE_UP
        }],
        rows: &[(&[0xF8], &[0xF8]), (&[0x90, 0x3C, 0x40], &[])],
    },
    Case {
        name: "to channel 9",
        rules: &[TO_CHANNEL_NINE],
        rows: &[
            (&[0x90, 0x3C, 0x40], &[0x99, 0x3C, 0x40]),
            (&[0xE0, 0x00, 0x40], &[0xE9, 0x00, 0x40]),
            (&[0x91, 0x3C, 0x40], &[]),
            (&[0xF8], &[0xF8]),
            (&[0xF6], &[0xF6]),
            (&[0xC0, 0x05], &[0xC9, 0x05]),
            (&[0xF0, 0x7D, 0xF7], &[0xF0, 0x7D, 0xF7]),
        ],
    },
    Case {
        name: "a note that is too high is dropped",
        rules: &[RuleArgs {
            shift: 7,
            ..TO_CHANNEL_NINE
        }],
        rows: &[(&[0x90, 0x7D, 0x40], &[])],
    },
    Case {
        name: "a note that is too low is dropped",
        rules: &[RuleArgs {
            shift: -61,
            ..TO_CHANNEL_NINE
        }],
        rows: &[
            (&[0x90, 0x3C, 0x40], &[]),
            (&[0x90, 0x3D, 0x40], &[0x99, 0x00, 0x40]),
        ],
    },
];

const IN_TURN: &[Case] = &[
    // Of the notes 60 to 72, which go to 72 to 84, the second takes 72 alone.
    Case {
        name: "two octaves up",
        rules: &[OCTAVE_UP, OCTAVE_UP],
        rows: &[
            (&[0x90, 60, 0x40], &[0x90, 84, 0x40]),
            (&[0x90, 61, 0x40], &[]),
            (&[0x90, 59, 0x40], &[]),
            (&[0x91, 60, 0x40], &[]),
            (&[0x80, 60, 0x40], &[]),
        ],
    },
    Case {
        name: "the channel that is given is taken",
        rules: &[TO_CHANNEL_NINE, NINE],
        rows: &[
            (&[0x90, 60, 0x40], &[0x99, 60, 0x40]),
            (&[0x99, 60, 0x40], &[]),
        ],
    },
    Case {
        name: "the last channel that is given stays",
        rules: &[TO_CHANNEL_NINE, NINE_TO_THREE],
        rows: &[(&[0xC0, 5], &[0xC3, 5])],
    },
    Case {
        name: "the first channel that is given stays",
        rules: &[NINE_TO_THREE, OPEN],
        rows: &[(&[0xC9, 5], &[0xC3, 5])],
    },
    Case {
        name: "the channel that is given is refused, real time alone is left",
        rules: &[
            TO_CHANNEL_NINE,
            RuleArgs {
                channels: 1,
                ..OPEN
            },
        ],
        rows: &[
            (&[0x90, 60, 0x40], &[]),
            (&[0xE0, 0, 0x40], &[]),
            (&[0xF8], &[0xF8]),
        ],
    },
    Case {
        name: "no note is left",
        rules: &[
            RuleArgs { shift: 100, ..OPEN },
            RuleArgs { shift: 100, ..OPEN },
        ],
        rows: &[
            (&[0x90, 0, 0x40], &[]),
            (&[0x80, 27, 0x40], &[]),
            (&[0xA0, 127, 0x40], &[]),
            (&[0xE0, 0, 0x40], &[0xE0, 0, 0x40]),
        ],
    },
    Case {
        name: "the shift goes above the next range",
        rules: &[
            RuleArgs { shift: 50, ..OPEN },
            RuleArgs { high: 40, ..OPEN },
        ],
        rows: &[
            (&[0x90, 0, 0x40], &[]),
            (&[0x90, 40, 0x40], &[]),
            (&[0xB0, 7, 100], &[0xB0, 7, 100]),
        ],
    },
    Case {
        name: "the shift goes below the next range",
        rules: &[
            RuleArgs { shift: -50, ..OPEN },
            RuleArgs { low: 100, ..OPEN },
        ],
        rows: &[(&[0x90, 127, 0x40], &[])],
    },
    Case {
        name: "the range is shifted back",
        rules: &[
            RuleArgs { shift: 50, ..OPEN },
            RuleArgs {
                low: 60,
                high: 70,
                shift: -5,
                ..OPEN
            },
        ],
        rows: &[
            (&[0x90, 9, 0x40], &[]),
            (&[0x90, 10, 0x40], &[0x90, 55, 0x40]),
            (&[0x90, 20, 0x40], &[0x90, 65, 0x40]),
            (&[0x90, 21, 0x40], &[]),
        ],
    },
    Case {
        name: "the first shift loses notes",
        rules: &[
            RuleArgs { shift: 100, ..OPEN },
            RuleArgs {
                shift: -100,
                ..OPEN
            },
        ],
        rows: &[
            (&[0x90, 27, 0x40], &[0x90, 27, 0x40]),
            (&[0x90, 28, 0x40], &[]),
        ],
    },
];

/// The rule that does what these do, one after another, made from its arguments.
fn joined(rules: &[RuleArgs]) -> Option<Rule> {
    let (first, rest) = rules.split_first()?;
    let mut rule = Rule::new(*first)?;
    for args in rest {
        let next = Rule::new(*args)?;
        rule = Rule::new(rule.then(&next).args())?;
    }
    Some(rule)
}

/// Whether a rule makes `expected` of a message.
fn makes(alloc: Global, rule: &Rule, bytes: &[u8], expected: &[u8]) -> Result<bool, WireFault> {
    let Some(message) = Message::from_bytes(alloc, bytes)? else {
        return Ok(false);
    };
    let mut out = Vec::new(alloc);
    if let Some(passed) = rule.pass(message) {
        passed.append_to(&mut out)?;
    }
    Ok(out.as_slice() == expected)
}

fn assert_case(rt: &impl Abort, alloc: Global, case: &Case) -> Result<(), WireFault> {
    let rule = joined(case.rules).expect(rt, case.name);
    for (bytes, expected) in case.rows {
        assert!(rt;
            makes(alloc, &rule, bytes, expected)?,
            "{}: of {bytes:?}",
            case.name
        );
    }
    Ok(())
}

#[test]
fn rules_alone(rt: HostRuntime) -> Result<(), WireFault> {
    for case in ALONE {
        assert_case(&rt, rt.alloc(), case)?;
    }
    Ok(())
}

#[test]
fn rules_in_turn(rt: HostRuntime) -> Result<(), WireFault> {
    for case in IN_TURN {
        assert_case(&rt, rt.alloc(), case)?;
    }
    Ok(())
}

const REFUSED: &[RuleArgs] = &[
    RuleArgs {
        channel: Some(16),
        ..OCTAVE_UP
    },
    RuleArgs {
        low: 73,
        ..OCTAVE_UP
    },
    RuleArgs {
        high: 128,
        ..OCTAVE_UP
    },
    RuleArgs {
        shift: -128,
        ..OCTAVE_UP
    },
];

#[test]
fn rules_are_tested(rt: HostRuntime) {
    for args in REFUSED {
        assert!(rt; Rule::new(*args).is_none());
    }
    let unknown = RuleArgs {
        kinds: Kinds::from_bits_retain(1024),
        ..OCTAVE_UP
    };
    assert!(rt; Rule::new(unknown).is_none());
    let empty = RuleArgs {
        channels: 0,
        kinds: Kinds::empty(),
        ..TO_CHANNEL_NINE
    };
    let rule = Rule::new(empty).expect(&rt, "a rule that lets nothing pass");
    assert!(rt; rule.args() == empty);
}
