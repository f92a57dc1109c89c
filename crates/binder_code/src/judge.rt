ghost use Rattle.std.specs.Prelude.{◌≡◌, ◌↔◌, map, Ok, IfSome, IsSome};
ghost use Rattle.binder_code.specs.Commands.{IsOfProtocol, HasCode, ListsCode, ListsNumber, row_of, lines_of, kind_of, listing_of, letter_of, is_of, payload_direction};
ghost use Rattle.binder_code.specs.Code.{number, size};
ghost use Rattle.binder_code.specs.Lines.{spelled, spelled_as, is_numbered, is_sized, listing_in};
ghost use Rattle.binder_code.specs.declared.record_kind.Kind.{Kind};

use crate::code::{Code, CodeFault};
use crate::protocol::Protocol;
use crate::record_kind::{Kind, LISTED, Line};

// The letter of the protocol's codes.
fn letter(protocol: Protocol) -> u8
    ensures { result ≡ letter_of protocol }
{
    match protocol {
        Protocol::Command => b'c',
        Protocol::Return => b'r',
    }
}

// The direction bits of a code that a payload follows.
fn payload_direction(protocol: Protocol) -> u8
    ensures { result ≡ payload_direction protocol }
{
    match protocol {
        Protocol::Command => 1,
        Protocol::Return => 2,
    }
}

// Whether the letter and the direction bits are the protocol's.
fn is_of(protocol: Protocol, code: Code) -> bool
    ensures { result ≡ is_of protocol code.0 }
{
    let direction = if code.size() == 0 {
        0
    } else {
        payload_direction(protocol)
    };
    code.letter() == letter(protocol) && code.direction() == direction
}

// The lines of the protocol's table.
#[inline(always)]
fn lines(protocol: Protocol) -> &'static [Line]
    ensures meant { map (λ line. kind_of protocol line.word) result.now
        ≡ map (λ line. Ok line.kind) result.now }
    ensures spelled { map spelled result.now ≡ map spelled_as (lines_of protocol) }
{
    match protocol {
        Protocol::Command => &LISTED[..COMMANDS],
        Protocol::Return => &LISTED[COMMANDS..],
    }
}

// How many lines are commands.
const COMMANDS: usize = Kind::BrError as usize;

// The kind of the line at a place, if it has this code word.
#[inline(always)]
fn kind_at(protocol: Protocol, place: usize, code: Code) -> Option<Kind>
    ensures { IfSome result (λ kind. kind_of protocol code.0 ≡ Ok kind) }
{
    match lines(protocol).get(place) {
        Some(line) if line.word == code.0 => Some(line.kind),
        _ => None,
    }
}

// The last number whose line is at its place. Two returns have the number 2, so the lines of later
// ones are one further on.
#[inline(always)]
fn last_in_place(protocol: Protocol) -> u8 {
    match protocol {
        Protocol::Command => (COMMANDS - 1) as u8,
        Protocol::Return => 2,
    }
}

// The kind of most listed code words, with one look at the line that their number names. The second
// return with the number 2, BR_TRANSACTION_SEC_CTX, is not found here.
#[inline(always)]
fn of_word(protocol: Protocol, code: Code) -> Option<Kind>
    ensures { IfSome result (λ kind. kind_of protocol code.0 ≡ Ok kind) }
{
    let number = code.number();
    let further = (number > last_in_place(protocol)) as usize;
    kind_at(protocol, number as usize + further, code)
}

// Whether the line has the number of this code word.
fn has_number(line: &Line, code: Code) -> bool
    ensures { result ≡ is_numbered (number code.0) line.now }
{
    Code(line.word).number() == code.number()
}

// Whether the line has the number and the size of this code word.
fn has_size(line: &Line, code: Code) -> bool
    ensures { result ≡ is_sized (number code.0) (size code.0) line.now }
{
    has_number(line, code) && Code(line.word).size() == code.size()
}

// What these lines say of a code word's number and size: a listed kind, an opaque record, or a size
// that the listed number does not have.
fn listing_in(lines: &[Line], code: Code) -> Result<Kind, CodeFault>
    ensures { result ≡ listing_in lines.now (number code.0) (size code.0) }
{
    let mut is_listed = false;
    for line in lines {
        if has_size(line, code) {
            return Ok(line.kind);
        }
        is_listed |= has_number(line, code);
    }
    if is_listed {
        Err(CodeFault::Size)
    } else {
        Ok(Kind::Opaque)
    }
}

// What the protocol's table says of a code word's number and size.
fn listing(protocol: Protocol, code: Code) -> Result<Kind, CodeFault>
    ensures { result ≡ listing_of protocol (number code.0) (size code.0) }
{
    listing_in(lines(protocol), code)
}

// What a code word means in a frame of the protocol, by its fields. Few records come here. As a
// call it leaves the reader of a record small enough to be inlined in the loops over records.
#[cold]
#[inline(never)]
fn by_fields(protocol: Protocol, code: Code) -> Result<Kind, CodeFault>
    ensures { result ≡ kind_of protocol code.0 }
{
    if is_of(protocol, code) {
        listing(protocol, code)
    } else {
        Err(CodeFault::Direction)
    }
}

// What a code word means in a frame of the protocol: by the word as a whole, otherwise by its
// fields.
#[inline(always)]
fn meaning(protocol: Protocol, code: Code) -> Result<Kind, CodeFault>
    ensures { result ≡ kind_of protocol code.0 }
{
    match of_word(protocol, code) {
        Some(kind) => Ok(kind),
        None => by_fields(protocol, code),
    }
}

/// What a code word means in a frame of the protocol.
#[inline(always)]
pub fn kind(protocol: Protocol, code: Code) -> Result<Kind, CodeFault>
    ensures exact { result ≡ kind_of protocol code.0 }

    // The same four outcomes, each by the table's lines alone.
    ensures direction { (result ≡ Err CodeFault.Direction) ↔ ¬ IsOfProtocol protocol code.0 }
    ensures listed { (listed : Kind) → IsSome (row_of listed) →
        ((result ≡ Ok listed) ↔ (IsOfProtocol protocol code.0 × HasCode listed protocol code.0)) }
    ensures opaque { (result ≡ Ok Kind.Opaque) ↔
        (IsOfProtocol protocol code.0 × ¬ ListsNumber protocol (number code.0)) }
    ensures size { (result ≡ Err CodeFault.Size) ↔
        (IsOfProtocol protocol code.0 × ListsNumber protocol (number code.0)
        × ¬ ListsCode protocol code.0) }
{
    meaning(protocol, code)
}
