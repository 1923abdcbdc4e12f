// An add, a withdrawal and a change whose route has passed its first checks: what is left to ask is the slots and the
// counters.
#![tactic(auto)]

ghost use Rattle.std.specs.Prelude.{◌≡◌, false, []};
ghost use Rattle.rules.specs.Numbers.{party_number, number_given};
ghost use Rattle.rules.specs.Table.{lent, left, odd_prefix, add, withdraw, change};
ghost use Rattle.rules.specs.Ready.{Counters, Slots};
ghost use Rattle.rules.specs.Meaning.{bucket_place, default_changed};
ghost use Rattle.settings.specs.Tables.{memory_of, Same};
ghost use Rattle.updates.specs.Checked.{Checked};

use buckets::{Stored, default_mark, is_own, mark_of, put_default, put_slot, stored_of};
use filters::{Step, step_counters};
use prefixes::is_odd;
use rules::{Party, Place, Refusal, Settings};
use settings::{InRange, Length, Table};

// Searches the prefix's own bucket of a table.
fn search_table(table: &Table, party: Party, p: u32, length: Length) -> Place
    ensures { result ≡ bucket_place table.now.settings.all table.now.slots.now (party_number party) p length.number }
{
    stored_of(table).search_bucket(party, p, length)
}

// Gives the party's default route, which has no counter and no bucket, another mark; 7 where it is not stored.
// It takes the slots alone, as `default_mark` and `put_default` do.
fn change_default(
    settings: Settings,
    slots: &mut [u32],
    party: Party,
    mark: u32,
) -> Result<(), Refusal>
    requires { Slots settings slots.old }
    ensures { default_changed settings (lent [] slots.old) (party_number party) mark ≡ left (number_given result) [] slots.new }
{
    if !is_own(party, default_mark(settings, slots, party)) {
        return Err(Refusal::NotStored);
    }
    put_default(settings, slots, party, mark);
    Ok(())
}

// Adds a route that has passed the checks.
// Prefix and length go as two numbers here and below, as every definition takes them, with what was checked of both.
pub fn add_checked(
    table: &mut Table,
    party: Party,
    p: u32,
    length: u32,
    hop: u16,
) -> Result<(), Refusal>
    requires checked { Checked p length }
    requires not_odd { odd_prefix p length ≡ false }
    ensures same { Same table.old table.new }
    ensures done { add table.old.settings.all (memory_of table.old) (party_number party) p length hop ≡ left (number_given result) table.new.counters.now table.new.slots.now }
{
    let mark = mark_of(party, hop);
    if length == 0 {
        put_default(table.settings.all, table.slots, party, mark);
        return Ok(());
    }
    let length = Length { number: length };
    let place = search_table(table, party, p, length);
    match place {
        Place::At { slot: held, .. } => put_slot(table.slots, held, p, mark),
        Place::Absent(vacancy) => {
            let Some(free) = vacancy else {
                return Err(Refusal::Full);
            };
            step_counters(&table.settings, table.counters, p, length, Step::Raise)?;
            put_slot(table.slots, free, p, mark);
        }
    }
    Ok(())
}

// Adds a route that was announced, in a message or a dump: it has passed 1 to 5 and 15, and 11 is asked here.
pub fn add_announced(
    table: &mut Table,
    party: Party,
    p: u32,
    length: u32,
    hop: u16,
) -> Result<(), Refusal>
    requires { Checked p length }
    ensures same { Same table.old table.new }
    ensures done { add table.old.settings.all (memory_of table.old) (party_number party) p length hop ≡ left (number_given result) table.new.counters.now table.new.slots.now }
{
    if is_odd(p, length) {
        return Err(Refusal::Odd);
    }
    add_checked(table, party, p, length, hop)
}

// Withdraws a route that has passed the checks.
pub fn withdraw_checked(table: &mut Table, party: Party, p: u32, length: u32) -> Result<(), Refusal>
    requires { Checked p length }
    ensures same { Same table.old table.new }
    ensures done { withdraw table.old.settings.all (memory_of table.old) (party_number party) p length ≡ left (number_given result) table.new.counters.now table.new.slots.now }
{
    if length == 0 {
        return change_default(table.settings.all, table.slots, party, 0);
    }
    let length = Length { number: length };
    let held = search_table(table, party, p, length);
    let Place::At { slot, .. } = held else {
        return Err(Refusal::NotStored);
    };
    step_counters(&table.settings, table.counters, p, length, Step::Lower)?;
    put_slot(table.slots, slot, 0, 0);
    Ok(())
}

// Gives a route that has passed the checks a new next hop.
// It takes no `Table`, since it only reads the counters: a caller that may not write them can call it.
pub fn change_checked(
    settings: &InRange,
    counters: &[u8],
    slots: &mut [u32],
    party: Party,
    p: u32,
    length: u32,
    hop: u16,
) -> Result<(), Refusal>
    requires checked { Checked p length }
    requires counters { Counters settings.now.all counters.now }
    requires slots { Slots settings.now.all slots.old }
    ensures { change settings.now.all (lent counters.now slots.old) (party_number party) p length hop ≡ left (number_given result) counters.now slots.new }
{
    let mark = mark_of(party, hop);
    if length == 0 {
        return change_default(settings.all, slots, party, mark);
    }
    let length = Length { number: length };
    let place = Stored { settings, slots }.search_bucket(party, p, length);
    let Place::At { slot, .. } = place else {
        return Err(Refusal::NotStored);
    };
    put_slot(slots, slot, p, mark);
    Ok(())
}
