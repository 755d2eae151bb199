// Rule schedules.

ghost use Rattle.binder.specs.Schedule.{Scheduling};
ghost use Rattle.rule.specs.Says.{says};

use crate::fault::ScheduleFault;
use crate::share::Share;
use crate::single::{Criteria, Single};
use grammar::Description;
use rule::Rule;

// A rule, and one share for all issuers.
pub type RuleSchedule = Single<Rule>;

impl Criteria for Rule {
    ghost passes = { says };

    fn none() -> Rule {
        Rule::blank()
    }

    fn passes(&self, lot: Description) -> bool {
        self.ask(lot)
    }
}

impl RuleSchedule {
    // Loads the rule from its text and the share. What is refused leaves the schedule.
    pub fn load(&mut self, label: u8, share: u64, text: &[u8]) -> Result<(), ScheduleFault>
        ensures { Scheduling label share text.now self.old self.new result }
    {
        let fault = |cause, place| ScheduleFault {
            cause,
            place,
            label,
        };
        let mut rule = Rule::blank();
        rule.load(text)
            .map_err(|found| fault(found.cause, found.place))?;
        let share = Share::try_from(share).map_err(|cause| fault(cause, 0))?;
        *self = Single::new(rule, share);
        Ok(())
    }
}
