//! What is learnt of the nodes that generations mean from the objects of two messages, of which one
//! delivers what the other one hands over.

ghost use Rattle.std.specs.Prelude.{IfOk, OnOk};
ghost use Rattle.listing_tables.specs.Meanings.{LearnsEach, LearnsObject, LearnsOne};
ghost use Rattle.listing_tables.specs.Pairing.{IsAfterGaps};

use crate::handed::{Handed, HandedOver, Object, numbered};
use crate::meanings::Meanings;
use crate::messages::Messages;
use listing_fields::{ListingError, Outcome};

/// The objects that a message hands over or delivers, and after how many gaps.
pub(crate) fn objects_at<'h>(
    messages: &Messages,
    handed: &'h HandedOver,
    message: u32,
) -> Result<(&'h [Handed], u32), ListingError>
    ensures { IfOk result (λ found. IsAfterGaps messages.now.list.all.items message found.1) }
{
    let gaps = messages.list.at(message)?.gaps;
    Ok((handed.objects_of(message), gaps))
}

/// Notes what is known of the objects that a message hands over and another one delivers, each after
/// so many gaps.
pub(crate) fn learn_each(
    meanings: &mut Meanings,
    objects: &[Handed],
    before: u32,
    others: &[Handed],
    after: u32,
) -> Outcome
    ensures { OnOk result (
        LearnsEach meanings.old meanings.new objects.now before others.now after) }
{
    for one in objects {
        learn_one(meanings, *one, before, others, after)?;
    }
    Ok(())
}

/// Notes what is known of an object that a message hands over after so many gaps, by the one with
/// its number among these that come after so many.
fn learn_one(
    meanings: &mut Meanings,
    one: Handed,
    before: u32,
    others: &[Handed],
    after: u32,
) -> Outcome
    ensures { OnOk result (
        LearnsOne meanings.old meanings.new one before others.now after) }
{
    let Some(other) = numbered(others, one.number) else {
        return Ok(());
    };
    learn_object(meanings, (one.object, before), (other.object, after))
}

/// Notes what is known of an object, by what it is to the process that hands it over and to the one
/// that gets it, each after so many gaps.
fn learn_object(meanings: &mut Meanings, sent: (Object, u32), came: (Object, u32)) -> Outcome
    ensures { OnOk result (
        LearnsObject meanings.old meanings.new sent.0 sent.1 came.0 came.1) }
{
    match (sent, came) {
        ((Object::Own(node), _), (Object::Of(reference), gaps))
        | ((Object::Of(reference), gaps), (Object::Own(node), _)) => {
            meanings.learn(reference.generation, gaps, node)
        }
        ((Object::Of(one), before), (Object::Of(other), after)) => {
            meanings.learn_same((one.generation, before), (other.generation, after))
        }
        _ => Ok(()),
    }
}
