// Up to 32 issuers, each with a flag, so that one is found in one step.

ghost use Rattle.std.specs.Prelude.{◌≡◌, ℕ, ◌≤◌, false};
ghost use Rattle.binder.specs.Issuers.{listed, number_of, Adding};

use cause::Cause;

// How many issuers there are.
const ISSUERS: usize = 256;

// How many of them one exclusion takes.
const MOST: usize = 32;

#[derive(Clone, Copy, PartialEq, Eq, Debug)]
pub struct Issuers {
    flags: [bool; ISSUERS],
    // Kept beside the flags, so that one more is listed in one step too.
    count: usize,
    ghost counted: { count ≡ number_of flags },
    ghost few: { count ≤ 32 },
}

impl Issuers {
    // No issuer.
    pub fn none() -> Issuers
        ensures { (i : ℕ) → listed result.flags i ≡ false }
    {
        Issuers {
            flags: [false; ISSUERS],
            count: 0,
        }
    }

    // Whether the issuer is listed.
    pub fn lists(&self, issuer: u16) -> bool
        ensures { result ≡ listed self.now.flags issuer }
    {
        self.flags
            .get(usize::from(issuer))
            .copied()
            .unwrap_or(false)
    }

    // Lists an issuer. One that is listed already changes nothing; a new one past 32 is refused.
    pub fn add(&mut self, issuer: u8) -> Result<(), Cause>
        ensures { Adding issuer self.old.flags self.new.flags result }
    {
        if self.lists(u16::from(issuer)) {
            return Ok(());
        }
        if self.count >= MOST {
            return Err(Cause::ExclusionFull);
        }
        self.flags[usize::from(issuer)] = true;
        self.count += 1;
        Ok(())
    }
}
