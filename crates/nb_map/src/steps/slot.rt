//! A call at its key's slot in a table, and a write at its home slot: what it does to what it finds
//! there.
ghost use Rattle.std.specs.Prelude.{IfSome, Some, [], ℕ, ◌+◌, ◌-◌, ◌<◌, ◌≡◌, ◌≤◌};
ghost use Rattle.nb_core.specs.Calls.{same_number};
ghost use Rattle.nb_core.specs.Log.{holds_of};
ghost use Rattle.nb_core.specs.States.{shown_by_value};
ghost use Rattle.nb_core.specs.Tables.{IsSlot, IsUnprimed};
ghost use Rattle.nb_core.specs.declared.calls.Call.TheVariants as call;
ghost use Rattle.nb_core.specs.declared.calls.Call.{Call};
ghost use Rattle.nb_core.specs.declared.calls.Want.TheVariants as want;
ghost use Rattle.nb_core.specs.declared.numbers.TheConstants.{VALUE_MAX};
ghost use Rattle.nb_core.specs.declared.states.KeyState.TheVariants as key_is;
ghost use Rattle.nb_table.specs.Chains.{ChainOf, IsOwn, SeenBy, seen_by};
ghost use Rattle.nb_map.specs.Calling.{HasMade};
ghost use Rattle.nb_map.specs.Steps.{pass_steps, slot_visit_steps};
ghost use Rattle.nb_map.specs.inside.Climbing.{IsAbove, IsAtSlot, IsSpent, IsTried, IsVisit, IsWithoutTries, made_by, made_if_tried};
ghost use Rattle.nb_map.specs.inside.Waiting.{HasTriedAtHome};
ghost use Rattle.nb_map.specs.inside.Writing.{IsDecided};

use crate::faults::PutFault;
use crate::steps::pause::Pause;
use crate::steps::rung::{Below, Visit};
use nb_copy::copy_and_count;
use nb_core::{Call, Change, KeyState, Num, Reply, Slot, ValueState, ValueWord, Want};
use nb_table::{Chain, ChainSeat};

/// What the first try of a write comes to, at home.
#[derive(Clone, Copy)]
pub(crate) enum AtHome {
    /// It is made by an exchange that it won, and this is its reply.
    Made(Reply),
    /// It is made, and this is its reply: it leaves what is there as it is.
    Left(Reply),
    /// It would put a number past the greatest one, and is refused.
    Overflow,
    /// It has to go on by the general way.
    GoesOn,
}

impl AtHome {
    /// The same, but of a put it isn't told apart whether it left what was there as it was: then the
    /// rest of its code is one piece, which is shorter. An add's and a removal's are shorter in two.
    #[inline(always)]
    pub(crate) fn joined_of(self, change: &Change) -> AtHome
        ensures { (chain : ChainOf) (call : Call) (before after : SeenBy) (left : ℕ)
            → HasTriedAtHome chain call before after left self
            → HasTriedAtHome chain call before after left result }
    {
        match (*change, self) {
            (Change::Put(_), AtHome::Left(reply)) => AtHome::Made(reply),
            _ => self,
        }
    }
}

/// The straight way of a write: its first try, at its key's home slot in the table that its seat
/// remembers as the top one, and whether that try is left. The write is made there if the slot is
/// its key's; if it is empty and the write leaves an absent key alone; or if it is empty and can be
/// claimed for the key, as it can unless the table is being copied. No loop over slots or tables is
/// on this way, so that it can stand in the code of the call.
#[inline(always)]
#[tactic(auto, using(nb_core::proofs::Theorems::linked))]
pub(crate) fn write_home<P: Pause>(
    chain: &Chain,
    seat: &mut ChainSeat,
    call: &Call,
    left: &mut u32,
    pause: &mut P,
) -> AtHome
    requires own { IsOwn chain.now seat.old }
    requires serves { P.serves pause.old chain.now }
    ensures tried { HasTriedAtHome chain.now call.now seat.old seat.new left.new result }
    ensures left { left.new ≤ 1 }
    ensures serves { P.serves pause.new chain.now }
{
    let top = seat.known_top();
    let home = chain.shape().path(top, call.key()).slot(0);
    *left = 1;
    let word = chain.load_key_word_at(seat, home, Some(*call));
    // First, whether it is the key's, as it is mostly.
    if !word.is(call.key()) {
        if !word.is_empty() {
            return AtHome::GoesOn;
        }
        if let Decision::Leave(reply) = decide(call, &None, &None) {
            return AtHome::Left(reply);
        }
        if top + 1 < chain.shape().generations() && chain.load_next(seat, top, None) {
            return AtHome::GoesOn;
        }
        match chain.claim_key_at(seat, home, call.key()) {
            KeyState::Empty => {}
            KeyState::Dead => return AtHome::GoesOn,
            KeyState::Claimed(other) => {
                if other != call.key() {
                    return AtHome::GoesOn;
                }
            }
        }
    }
    match try_at(chain, seat, call, home, left, pause) {
        Attempt::Made(reply) => AtHome::Made(reply),
        Attempt::Left(reply) => AtHome::Left(reply),
        Attempt::Overflow => AtHome::Overflow,
        Attempt::Lost => AtHome::GoesOn,
        Attempt::Copied(_) => AtHome::GoesOn,
    }
}

/// What a call comes to at its key's slot in a table.
#[derive(Clone, Copy)]
pub(crate) enum Attempt {
    /// It is made by an exchange that it won, and this is its reply.
    Made(Reply),
    /// It is made, and this is its reply: it leaves what is there as it is.
    Left(Reply),
    /// It would put a number past the greatest one.
    Overflow,
    /// It has lost its last try.
    Lost,
    /// The slot is being copied, and its value is this word.
    Copied(ValueWord),
}

/// Makes a call at its key's slot. Where the slot is being copied, it is finished, and the call goes
/// on in the next table.
#[inline(always)]
pub(crate) fn call_at<P: Pause>(
    chain: &Chain,
    seat: &mut ChainSeat,
    call: &Call,
    slot: Slot,
    tries: &mut u32,
    pause: &mut P,
) -> Visit
    requires at { IsAtSlot chain.now call.now seat.old slot }
    requires some { 1 ≤ tries.old }
    requires serves { P.serves pause.old chain.now }
    ensures made { HasMade chain.now.shape call.now seat.old seat.new (made_by call.now result)
        (slot_visit_steps chain.now.shape slot.g result + (tries.old - tries.new)) }
    ensures visit { IsVisit chain.now.shape call.now seat.old seat.new slot.g tries.old tries.new
        result }
    ensures spent { IsSpent call.now seat.old seat.new tries.old tries.new }
    ensures serves { P.serves pause.new chain.now }
{
    match try_at(chain, seat, call, slot, tries, pause) {
        Attempt::Made(reply) | Attempt::Left(reply) => Visit::Told(reply),
        Attempt::Overflow => Visit::Refused(PutFault::ValueRange),
        Attempt::Lost => Visit::Refused(PutFault::Contended),
        Attempt::Copied(word) => {
            pass_slot(chain, seat, slot, word);
            Visit::Above(Below::HasKey)
        }
    }
}

/// The same as far as the slot goes. What the slot's value shows decides the call, by a load or by
/// an exchange that was lost; or the call exchanges that value, and takes one from its tries for
/// each exchange that it loses to another write.
#[inline(always)]
pub(crate) fn try_at<P: Pause>(
    chain: &Chain,
    seat: &mut ChainSeat,
    call: &Call,
    slot: Slot,
    tries: &mut u32,
    pause: &mut P,
) -> Attempt
    requires at { IsAtSlot chain.now call.now seat.old slot }
    requires some { 1 ≤ tries.old }
    requires serves { P.serves pause.old chain.now }
    ensures made { HasMade chain.now.shape call.now seat.old seat.new
        (made_if_tried call.now result) (2 + (tries.old - tries.new)) }
    ensures tried { IsTried chain.now.shape call.now seat.old seat.new slot tries.old tries.new
        result }
    ensures spent { IsSpent call.now seat.old seat.new tries.old tries.new }
    ensures looked { seat.old.steps < seat.new.steps }
    ensures serves { P.serves pause.new chain.now }
{
    let mut from = chain.load_value_word_at(seat, slot, Some(*call));
    while let Some(number) = from.shows() {
        match decide(call, &number, &Some(from)) {
            Decision::Leave(reply) => return Attempt::Left(reply),
            Decision::Overflow => return Attempt::Overflow,
            Decision::Exchange(to) => {
                pause.before_exchange(chain);
                let Err(found) = chain.win_value_at(seat, slot, *call, from, to) else {
                    return Attempt::Made(Reply {
                        before: number,
                        matched: true,
                    });
                };
                if let Some(shown) = found.shows() {
                    *tries -= 1;
                    if *tries == 0 {
                        return without_tries(call, &shown);
                    }
                    pause.after_loss(chain);
                }
                from = found;
            }
        }
    }
    Attempt::Copied(from)
}

/// What a call comes to that has lost its last try, and has found this number at its key, or none.
#[inline(always)]
fn without_tries(call: &Call, found: &Option<Num>) -> Attempt
    ensures { IsWithoutTries call.now found.now result }
{
    match decide(call, found, &None) {
        Decision::Leave(reply) => Attempt::Left(reply),
        _ => Attempt::Lost,
    }
}

/// Finishes a slot that holds the value of this word, primed or final: a call that looks for the
/// slot's key goes on above.
#[inline(never)]
fn pass_slot(chain: &Chain, seat: &mut ChainSeat, slot: Slot, word: ValueWord)
    requires own { IsOwn chain.now seat.old }
    requires slot { IsSlot chain.now.shape slot.g slot.i }
    requires primed { IsUnprimed word → ⊥ }
    requires held { (seen_by chain.now.shape seat.old).value slot.g slot.i ≡ word }
    ensures made { (call : Call) → HasMade chain.now.shape call seat.old seat.new []
        (pass_steps chain.now.shape slot.g) }
    ensures passed { (key : ℕ)
        → (seen_by chain.now.shape seat.old).key slot.g slot.i ≡ key_is.Claimed key
        → IsAbove chain.now.shape (seen_by chain.now.shape seat.new) slot.g key }
{
    if !word.state().is_finished() {
        copy_and_count(chain, seat, slot.g, slot.i);
    }
}

/// What a call does where its key has a number, or none.
#[derive(Clone, Copy)]
pub(crate) enum Decision {
    /// It leaves that as it is, and replies this.
    Leave(Reply),
    /// It puts this value there.
    Exchange(ValueState),
    /// It would put a number past the greatest one.
    Overflow,
}

/// Reminds a proof of the range of a number, if there is one. It does nothing.
fn known(number: &Option<Num>)
    ensures { IfSome number.now (λ n. n ≤ VALUE_MAX) }
{
    if let Some(number) = number {
        number.known();
    }
}

/// Whether a change that puts this number, or none, leaves what is there as it is. Where the value's
/// word is at hand, words are compared: so the number is decoded only where it is answered.
#[inline(always)]
fn is_same(number: &Option<Num>, from: &Option<ValueWord>, after: &Option<Num>) -> bool
    requires shown { IfSome from.now (λ word. shown_by_value word ≡ Some number.now) }
    ensures { result ≡ same_number after.now number.now }
{
    match (from, after) {
        (Some(word), Some(put)) => word.get() == ValueWord::of(ValueState::Live(*put)).get(),
        _ => *after == *number,
    }
}

/// Whether there is no number, or a smaller one than the limit. Where the value's word is at hand,
/// words are compared: one that holds no number is below each that does, so this is one comparison.
#[inline(always)]
fn is_below(number: &Option<Num>, from: &Option<ValueWord>, limit: Num) -> bool
    requires shown { IfSome from.now (λ word. shown_by_value word ≡ Some number.now) }
    ensures { result ≡ holds_of (want.Below limit) number.now }
{
    match from {
        Some(word) => word.get() < ValueWord::of(ValueState::Live(limit)).get(),
        None => Want::Below(limit).holds_of(*number),
    }
}

/// Whether the condition holds of this number, or none, whose value has this word, if one is given.
#[inline(always)]
fn holds(want: &Want, number: &Option<Num>, from: &Option<ValueWord>) -> bool
    requires shown { IfSome from.now (λ word. shown_by_value word ≡ Some number.now) }
    ensures { result ≡ holds_of want.now number.now }
{
    match *want {
        Want::Below(limit) => is_below(number, from, limit),
        other => other.holds_of(*number),
    }
}

/// What the call does where its key has this number, or none, and its value this word, if one is
/// given.
#[inline(always)]
pub(crate) fn decide(call: &Call, number: &Option<Num>, from: &Option<ValueWord>) -> Decision
    requires shown { IfSome from.now (λ word. shown_by_value word ≡ Some number.now) }
    ensures { IsDecided call.now number.now result }
{
    known(number);
    let Call::Write { want, change, .. } = *call else {
        return Decision::Leave(Reply {
            before: *number,
            matched: true,
        });
    };
    let matched = holds(&want, number, from);
    if !matched {
        return Decision::Leave(Reply {
            before: *number,
            matched,
        });
    }
    match change.changed(*number) {
        Err(_) => Decision::Overflow,
        Ok(after) => {
            if is_same(number, from, &after) {
                Decision::Leave(Reply {
                    before: *number,
                    matched,
                })
            } else {
                Decision::Exchange(after.map_or(ValueState::Tombstone, ValueState::Live))
            }
        }
    }
}
