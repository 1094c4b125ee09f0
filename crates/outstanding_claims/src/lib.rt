// What several calls on tables of outstanding requests promise together: code that makes the calls, on words that a host lends, and
// promises the claim. It breaks where one of them promises less.
#![tactic(auto)]

ghost use Rattle.std.specs.Prelude.{◌≡◌, ◌<◌};
ghost use Rattle.layout.specs.Reading.{refused as refused_answer};
ghost use Rattle.layout.specs.Refusals.{id_not_outstanding};
ghost use Rattle.outstanding.specs.Calls.{type_bound};
ghost use Rattle.exports.specs.Shown.{reading_of};

use exports::TushaletsReading;
use exports_outstanding::TushaletsLooked;

// The shape of a reading, 0 for a refusal; whether the id was outstanding behind it; and what entering then answered.
#[derive(Drop)]
pub struct Refilled {
    pub arrived: u32,
    pub held: u32,
    pub entered: u32,
}

// The room of an answered reply is used again, however full the table was: an id that is not outstanding is entered.
pub fn refill(records: &mut [u64], message: &[u8], id: u32, type_number: u8) -> Refilled
    ensures { (result.arrived ≡ 0 → ⊥) → result.held ≡ 0 → type_number < type_bound → result.entered ≡ 0 }
{
    let reading = exports_outstanding::tushalets_arrive(records, message);
    let look = exports_outstanding::tushalets_look(records, id);
    let entered = exports_outstanding::tushalets_enter(records, id, type_number);
    Refilled {
        arrived: reading.shape,
        held: look.held,
        entered,
    }
}

// The readings of a reply that arrived twice.
#[derive(Drop)]
pub struct Twice {
    pub first: TushaletsReading,
    pub second: TushaletsReading,
}

// A reply that was answered is noticed as stray when it arrives again.
pub fn arrive_twice(records: &mut [u64], message: &[u8]) -> Twice
    ensures { (result.first.shape ≡ 0 → ⊥) → result.second ≡ reading_of (refused_answer id_not_outstanding 0) }
{
    let first = exports_outstanding::tushalets_arrive(records, message);
    let second = exports_outstanding::tushalets_arrive(records, message);
    Twice { first, second }
}

// The readings of two replies in both orders: of each where it came first, and behind the other.
#[derive(Drop)]
pub struct Orders {
    pub one: TushaletsReading,
    pub one_behind: TushaletsReading,
    pub other: TushaletsReading,
    pub other_behind: TushaletsReading,
}

// The replies to two different outstanding ids, in either order, on two copies of one table: behind the other each is answered as it is
// alone, and the tables are the same afterwards, word for word.
pub fn either_order(first: &mut [u64], second: &mut [u64], one: &[u8], other: &[u8]) -> Orders
    ensures { first.old ≡ second.old → (result.one.shape ≡ 0 → ⊥) → (result.other.shape ≡ 0 → ⊥) → (result.one.id ≡ result.other.id → ⊥)
        → (result.one_behind ≡ result.one) × (result.other_behind ≡ result.other) × (first.new ≡ second.new) }
{
    let a = exports_outstanding::tushalets_arrive(first, one);
    let b = exports_outstanding::tushalets_arrive(second, other);
    let b_behind = exports_outstanding::tushalets_arrive(first, other);
    let a_behind = exports_outstanding::tushalets_arrive(second, one);
    Orders {
        one: a,
        one_behind: a_behind,
        other: b,
        other_behind: b_behind,
    }
}

// A look into each of two tables, and what entering answered in each.
#[derive(Drop)]
pub struct AlikeEntries {
    pub first_look: TushaletsLooked,
    pub second_look: TushaletsLooked,
    pub first: u32,
    pub second: u32,
}

// What entering answers depends on nothing but what a look for the id shows: two tables that look the same answer the same, whatever
// they hold under other ids.
pub fn enter_alike(first: &mut [u64], second: &mut [u64], id: u32, type_number: u8) -> AlikeEntries
    ensures { result.first_look ≡ result.second_look → result.first_look.number ≡ 0 → result.first ≡ result.second }
{
    let first_look = exports_outstanding::tushalets_look(first, id);
    let second_look = exports_outstanding::tushalets_look(second, id);
    let first = exports_outstanding::tushalets_enter(first, id, type_number);
    let second = exports_outstanding::tushalets_enter(second, id, type_number);
    AlikeEntries {
        first_look,
        second_look,
        first,
        second,
    }
}

// A look into each of two tables for the id of a reply, and the reading of the reply in each.
#[derive(Drop)]
pub struct AlikeArrivals {
    pub first_look: TushaletsLooked,
    pub second_look: TushaletsLooked,
    pub first: TushaletsReading,
    pub second: TushaletsReading,
}

// What an arriving reply answers depends on nothing but what a look for its id shows. A refused reply has id 0.
pub fn arrive_alike(first: &mut [u64], second: &mut [u64], message: &[u8]) -> AlikeArrivals
    ensures { result.first_look ≡ result.second_look → result.first_look.number ≡ 0 → result.first ≡ result.second }
{
    let reading = exports_reading::tushalets_read_reply(message);
    let first_look = exports_outstanding::tushalets_look(first, reading.id);
    let second_look = exports_outstanding::tushalets_look(second, reading.id);
    let first = exports_outstanding::tushalets_arrive(first, message);
    let second = exports_outstanding::tushalets_arrive(second, message);
    AlikeArrivals {
        first_look,
        second_look,
        first,
        second,
    }
}
