//! What is handed back of the parts, once both ends of each one's ring are at hand.
ghost use Rattle.std.specs.Prelude.{◌≡◌, ◌≤◌, [], ℕ, Some, length, slice_get, vec_capacity};
ghost use Rattle.squeue_arrivals.specs.declared.served.KeyPart.{KeyPart};
ghost use Rattle.squeue_answers.specs.declared.steps.Answerer.{Answerer};
ghost use Rattle.squeue_answers.specs.Parting.{IsCompared, IsComparedAt, MayCompare, MayCompareAt, plain_part, plain_parts, plain_refused};
ghost use Rattle.squeue_answers.specs.Rings.{SameInputs};

use crate::rings::AnswerRings;
use crate::steps::{Answerer, Asked};
use rtrb::Producer;
use squeue_arrivals::{KeyPart, Refused};

/// The parts without what they needed to answer.
pub(crate) fn plain_parts_of<S: Drop, A: Drop>(
    rings: &mut AnswerRings<A>,
    parts: Vec<KeyPart<Answerer<S, A>>>,
    room: Vec<KeyPart<S>>,
) -> Vec<KeyPart<S>>
    requires pairs { (i : ℕ) (part : KeyPart (Answerer S A)) → slice_get parts.items i ≡ Some part → MayCompare rings.old part }
    requires room { (room.items ≡ []) × (length parts.items ≤ vec_capacity room) }
    ensures parts { result.items ≡ plain_parts parts.items }
    ensures compared { (i : ℕ) (part : KeyPart (Answerer S A)) → slice_get parts.items i ≡ Some part → IsCompared rings.old part }
{
    let mut parts = parts;
    let mut plain = room;
    parts.reverse();
    'parts: while let Some(part) = parts.pop() {
        plain.push_reserved(plain_part_of(rings, part));
    }
    plain
}

// One of them. With both ends of its ring at hand it is known that what was pushed came, or is still to come.
fn plain_part_of<S: Drop, A: Drop>(
    rings: &mut AnswerRings<A>,
    part: KeyPart<Answerer<S, A>>,
) -> KeyPart<S>
    requires { MayCompare rings.old part }
    ensures part { result ≡ plain_part part }
    ensures compared { IsCompared rings.old part }
    ensures same { SameInputs rings.old rings.new }
{
    let KeyPart {
        key,
        state: answerer,
    } = part;
    let Answerer { state, out } = answerer;
    compare_at(rings, key, out);
    KeyPart { key, state }
}

// Looks at both ends of a key's ring, where this is the other one.
fn compare_at<A: Drop>(rings: &mut AnswerRings<A>, key: u64, out: Option<Producer<A>>)
    requires { MayCompareAt rings.old key out }
    ensures compared { IsComparedAt rings.old key out }
    ensures same { SameInputs rings.old rings.new }
{
    let Some(end) = out else {
        return;
    };
    let mut end = end;
    rings.compare(key, &mut end);
}

/// An item that was refused, without what it carried.
pub(crate) fn plain_refused_of<T: Drop, A: Drop>(
    refused: Option<Refused<Asked<T, A>>>,
) -> Option<Refused<T>>
    ensures { result ≡ plain_refused refused }
{
    let Refused {
        key,
        item: asked,
        cause,
    } = refused?;
    Some(Refused {
        key,
        item: asked.item,
        cause,
    })
}
