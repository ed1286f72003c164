// The running tally, changed in place: one function for each change of it that running makes. Above each stands the same by
// value, which the core hands on. Rests on the tally of `meaning` alone.
#![tactic(auto)]

ghost use Rattle.std.specs.Prelude.{◌≡◌, ◌+◌, ◌-◌, ◌<◌, ◌^◌};

use meaning::Tally;

// Entering a command: one fuel less, one step more.
pub fn spend(t: &mut Tally)
    requires { (0 < t.old.fuel) × (t.old.steps + 1 < 2 ^ 64) }
    ensures { t.new ≡ record { fuel = t.old.fuel - 1; steps = t.old.steps + 1; records = t.old.records } }
{
    t.fuel -= 1;
    t.steps += 1;
}

// The records used after an application, or after undoing.
pub fn count(t: &mut Tally, records: usize)
    ensures { t.new ≡ record { fuel = t.old.fuel; steps = t.old.steps; records = records } }
{
    t.records = records;
}

// A command entered, by value.
pub fn entered(mut t: Tally) -> Tally
    requires { (0 < t.fuel) × (t.steps + 1 < 2 ^ 64) }
    ensures { result ≡ record { fuel = t.fuel - 1; steps = t.steps + 1; records = t.records } }
{
    spend(&mut t);
    t
}

// The records counted, by value.
pub fn counted(mut t: Tally, records: usize) -> Tally
    ensures { result ≡ record { fuel = t.fuel; steps = t.steps; records = records } }
{
    count(&mut t, records);
    t
}
