// Any two binders, joined at a switch.

ghost use Rattle.std.specs.Prelude.{◌≡◌};
ghost use Rattle.binder.specs.Layers.{joined};
ghost use Rattle.binder.specs.Switch.{Setting};
ghost use Rattle.binder.specs.Lawfuls.{joined_lawful};

use crate::Binder;
use crate::switch::Switch;
use cause::Cause;
use grammar::Description;

#[derive(PartialEq, Eq, Debug, Drop)]
pub struct Pair<A, B> {
    switch: Switch,
    first: A,
    second: B,
}

impl<P, Q> Pair<P, Q> {
    // A pair at a switch.
    pub fn at(switch: Switch, first: P, second: Q) -> Pair<P, Q>
        ensures { result ≡ record { switch = switch; first = first; second = second } }
    {
        Pair {
            switch,
            first,
            second,
        }
    }

    // A pair at 16.
    pub fn new(first: P, second: Q) -> Pair<P, Q>
        ensures { (result.first ≡ first) × (result.second ≡ second) × (result.switch.at ≡ 16) }
    {
        Pair::at(Switch::new(), first, second)
    }

    // Sets the switch. One over 16 is refused and changes nothing.
    pub fn set_switch(&mut self, at: u64) -> Result<(), Cause>
        ensures { Setting at self.old.switch.at self.new.switch.at result × (self.new.first ≡ self.old.first) × (self.new.second ≡ self.old.second) }
    {
        self.switch.set(at)
    }
}

impl<P: Binder, Q: Binder> Binder for Pair<P, Q> {
    ghost meaning = { λ x. joined x.switch.at (P.Binder.meaning x.first) (Q.Binder.meaning x.second) };

    ghost lawful = { λ x. joined_lawful _ _ _ (P.Binder.lawful x.first) (Q.Binder.lawful x.second) };

    fn held(&self, number: u64) -> bool {
        self.switch
            .ask(number, |n| self.first.held(n), |n| self.second.held(n))
            .unwrap_or(false)
    }

    fn admits(&self, number: u64, lot: Description) -> bool {
        self.switch
            .ask(
                number,
                |n| self.first.admits(n, lot),
                |n| self.second.admits(n, lot),
            )
            .unwrap_or(false)
    }

    fn share(&self, number: u64, issuer: u16) -> u16 {
        self.switch
            .ask(
                number,
                |n| self.first.share(n, issuer),
                |n| self.second.share(n, issuer),
            )
            .unwrap_or(0)
    }
}
