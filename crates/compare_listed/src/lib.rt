// A case as one word, its fields parted by colons.
#![tactic(auto)]

ghost use Rattle.std.specs.Prelude.{◌≤◌};

use calls::Answer;
use compare_tallies::Printed;
use model::{Compositions, NoCause, Refusal, Tests};
use place::Counts;

// ---- a case with a refusal that a call can answer

#[derive(Drop)]
pub enum Listed<'a> {
    // A file and the number of its refusal, 0 where it is read: `no-end.loom:12`.
    Read {
        file: &'a str,
        refusal: Option<Refusal>,
    },
    // A file, a measure, and what a whole run answers, length, refusal, compositions, tests: `A.loom:1:-:9:0:1`.
    Stated {
        file: &'a str,
        measure: usize,
        answer: Answer,
    },
}

fn parse_number(field: &str) -> Option<usize> {
    field.parse().ok()
}

// The refusal of a number, none for 0.
fn refusal_of(number: u32) -> Result<Option<Refusal>, NoCause> {
    match number {
        0 => Ok(None),
        _ => Refusal::try_from(number).map(Some),
    }
}

// None where the word is no case.
pub fn parse(text: &str) -> Option<Listed<'_>> {
    let mut fields = text.split(':');
    let file = fields.next()?;
    match text.split(':').count() {
        2 => Some(Listed::Read {
            file,
            refusal: refusal_of(fields.next()?.parse().ok()?).ok()?,
        }),
        6 => {
            let measure = parse_number(fields.next()?)?;
            let length = parse_number(fields.next()?);
            let length = match refusal_of(fields.next()?.parse().ok()?).ok()? {
                None => Ok(length?),
                Some(cause) => Err(cause),
            };
            let compositions = Compositions(parse_number(fields.next()?)?);
            let tests = Tests(parse_number(fields.next()?)?);
            let counts = Counts {
                compositions,
                tests,
            };
            Some(Listed::Stated {
                file,
                measure,
                answer: Answer { length, counts },
            })
        }
        _ => None,
    }
}

// ---- the same of any bytes, with any numbers, as `compare` has its arguments

#[derive(Drop)]
pub enum ListedBytes<'a> {
    Read {
        file: &'a [u8],
        refusal: usize,
    },
    Stated {
        file: &'a [u8],
        measure: usize,
        answer: Printed,
    },
}

// The value of a digit; 0 for any other byte, a dash too.
fn digit(byte: u8) -> usize
    ensures { result ≤ 9 }
{
    match byte {
        b'0'..=b'9' => usize::from(byte - b'0'),
        _ => 0,
    }
}

// A number keeps its last six digits: no case has more, and no text overflows it.
fn number(field: &[u8]) -> usize {
    let mut number: usize = 0;
    for byte in field {
        number = number % 100000 * 10 + digit(*byte);
    }
    number
}

// None where the word has other than two or six fields, whatever they hold.
pub fn parse_bytes(text: &[u8]) -> Option<ListedBytes<'_>> {
    let mut fields = text.split(|byte| *byte == b':');
    let file = fields.next()?;
    match text.iter().filter(|byte| **byte == b':').count() {
        1 => Some(ListedBytes::Read {
            file,
            refusal: number(fields.next()?),
        }),
        5 => Some(ListedBytes::Stated {
            file,
            measure: number(fields.next()?),
            answer: Printed {
                value: number(fields.next()?),
                refusal: number(fields.next()?),
                counts: Counts {
                    compositions: Compositions(number(fields.next()?)),
                    tests: Tests(number(fields.next()?)),
                },
            },
        }),
        _ => None,
    }
}

#[cfg(test)]
mod tests {
    use super::*;

    fn refusal(text: &str) -> Option<Option<Refusal>> {
        match parse(text)? {
            Listed::Read {
                file: "A.loom",
                refusal,
            } => Some(refusal),
            _ => None,
        }
    }

    fn stated(text: &str) -> Option<(usize, Answer)> {
        match parse(text)? {
            Listed::Stated {
                file: "A.loom",
                measure,
                answer,
            } => Some((measure, answer)),
            _ => None,
        }
    }

    #[test]
    fn parses_cases_alone(rt: HostRuntime) {
        assert!(rt; refusal("A.loom:0") == Some(None));
        assert!(rt; refusal("A.loom:18") == Some(Some(Refusal::FileRoom)));
        for text in [
            "A.loom",
            "A.loom:",
            "A.loom:x",
            "A.loom:19",
            "A.loom:0:0",
            "B.loom:0",
        ] {
            assert!(rt; refusal(text).is_none(), "at {text}");
        }
        let counts = Counts {
            compositions: Compositions(6),
            tests: Tests(4),
        };
        let nine = Answer {
            length: Err(Refusal::NoLength),
            counts,
        };
        // more digits than `parse_bytes` keeps
        let long = Answer {
            length: Ok(1234567),
            counts,
        };
        assert!(rt; stated("A.loom:1:-:9:6:4") == Some((1, nine)));
        assert!(rt; stated("A.loom:1:3:9:6:4") == Some((1, nine)));
        assert!(rt; stated("A.loom:3:1234567:0:6:4") == Some((3, long)));
        for text in [
            "A.loom:3:-:0:6:4",
            "A.loom:3:2:99:6:4",
            "A.loom:-:2:0:6:4",
            "A.loom:3:2:0:6:-",
            "A.loom:3:2:0:6",
            "A.loom:3:2:0:6:4:1",
        ] {
            assert!(rt; stated(text).is_none(), "at {text}");
        }
    }
}
