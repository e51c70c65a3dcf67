// The refusals (document 01, section 8), each with its number.
#![tactic(auto)]

ghost use Rattle.std.specs.Prelude.{◌≡◌, ◌≤◌, ◌<◌, MatchResult};
ghost use Rattle.refusal.specs.Numbers.{number, Listed};

// Why a call is refused.
#[derive(Clone, Copy, Debug, PartialEq, Eq)]
pub enum Refusal {
    // The work buffer is too short.
    Work,
    // The bundle breaks its layout.
    Bundle,
    // The sheet breaks its layout.
    Sheet,
    // The path or folder rule is broken.
    Path,
    // There is no such file.
    File,
    // A text or an opened file has a byte from 128.
    Byte,
    // A seventh dictionary, include or import level.
    Level,
    // A raw round moves by nothing.
    Stalled,
    // A sheet, a value or a growing dictionary is over L.
    Limit,
    // The middle buffer is too short.
    Middle,
    // The output buffer is too short.
    Output,
    // What a writer tells where it has no room, by a number of its caller's: no call of this library makes one.
    Other(u8),
}

impl From<Refusal> for u8 {
    ghost from_gives = { λ refusal n. n ≡ number refusal };

    #[tactic(auto, unfolding(crate::specs::Numbers::told))]
    fn from(refusal: Refusal) -> u8 {
        match refusal {
            Refusal::Work => 1,
            Refusal::Bundle => 2,
            Refusal::Sheet => 3,
            Refusal::Path => 4,
            Refusal::File => 5,
            Refusal::Byte => 6,
            Refusal::Level => 7,
            Refusal::Stalled => 8,
            Refusal::Limit => 9,
            Refusal::Middle => 10,
            Refusal::Output => 11,
            Refusal::Other(number) => number,
        }
    }
}

impl Refusal {
    // A call's number as a result: 0 where it is accepted, else its refusal, one of the eleven.
    pub fn check(n: u8) -> Result<(), Refusal>
        requires { n ≤ 11 }
        ensures reads { MatchResult result (λ _. n ≡ 0) (λ refusal. (n ≡ number refusal) × (0 < n)) }
        ensures listed { Listed result }
    {
        match n {
            0 => Ok(()),
            1 => Err(Refusal::Work),
            2 => Err(Refusal::Bundle),
            3 => Err(Refusal::Sheet),
            4 => Err(Refusal::Path),
            5 => Err(Refusal::File),
            6 => Err(Refusal::Byte),
            7 => Err(Refusal::Level),
            8 => Err(Refusal::Stalled),
            9 => Err(Refusal::Limit),
            10 => Err(Refusal::Middle),
            11 => Err(Refusal::Output),
            _ => unreachable!(),
        }
    }
}
