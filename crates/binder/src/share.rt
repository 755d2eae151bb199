// Which part of an exposure one issuer may cover.

ghost use Rattle.std.specs.Prelude.{◌≤◌};

use cause::Cause;

// A whole exposure, in ten-thousandths.
const WHOLE: u64 = 10_000;

// A part of an exposure, in ten-thousandths.
#[derive(Clone, Copy, PartialEq, Eq, Debug)]
pub struct Share {
    parts: u16,
    ghost bounded: { parts ≤ 10000 },
}

impl TryFrom<u64> for Share {
    type Error = Cause;

    ghost use Rattle.binder.specs.Share.{Sharing};

    ghost try_from_gives = { Sharing };

    // More than a whole exposure is refused.
    fn try_from(parts: u64) -> Result<Share, Cause> {
        if parts > WHOLE {
            return Err(Cause::RangePassed);
        }
        Ok(Share {
            parts: parts as u16,
        })
    }
}

impl Share {
    ghost use Rattle.std.specs.Prelude.{◌≡◌};

    // No part of an exposure.
    pub fn zero() -> Share
        ensures { result.parts ≡ 0 }
    {
        Share { parts: 0 }
    }

    // How many ten-thousandths.
    pub fn parts(self) -> u16
        ensures { result ≡ self.parts }
    {
        self.parts
    }
}
