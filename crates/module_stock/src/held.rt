//! Held messages as bytes.

ghost use Rattle.std.specs.Prelude.{◌≡◌, ◌<◌, ◌++◌, ◌^◌, length, None, Some, IfOk, IfSome, OnOk};
ghost use Rattle.std.specs.Prelude.{MatchOption};
ghost use Rattle.module_stock.specs.Held.{kept, can_be_held, Fits, message_bytes, with_payload};
ghost use Rattle.module_stock.specs.Held.{front_of};

use module_api::message::{Message, Outgoing};
use module_parts::bytes::{add_long, add_word, take_long, take_word};
use sim_values::NoMemory;
use sim_values::text::Text;
use std::alloc::Global;

/// Whether a message is one that the bytes of a state can tell. Those of a run are.
pub fn can_be_held(message: &Message) -> bool
    ensures { result ≡ can_be_held message.now }
{
    let _kind = message.kind;
    let _priority = message.priority;
    let _bits = message.bits;
    message.payload.as_bytes().len() < 65536
}

/// A message as it is held.
pub fn kept(alloc: Global, message: &Message) -> Result<Outgoing, NoMemory>
    ensures { IfOk result (λ m. m ≡ kept message.now) }
{
    Ok(Outgoing {
        kind: message.kind,
        priority: message.priority,
        bits: message.bits,
        payload: message.payload.copy(alloc)?,
    })
}

/// What stands before the payload of a message.
#[derive(Clone, Copy)]
struct Header {
    kind: u16,
    priority: u16,
    bits: u64,
    /// How many bytes the payload has.
    size: u16,
}

impl Header {
    ghost use Rattle.module_stock.specs.Held.{header_of, header_in, header_bytes};

    /// That of a message.
    fn of(message: &Outgoing) -> Header
        requires { length message.now.payload < 65536 }
        ensures { result ≡ header_of message.now }
    {
        Header {
            kind: message.kind.cast_unsigned(),
            priority: message.priority.cast_unsigned(),
            bits: message.bits,
            size: message.payload.as_bytes().len() as u16,
        }
    }

    /// Adds its bytes.
    #[tactic(auto, unfolding(crate::specs::Held::header_bytes))]
    fn add_to(self, bytes: &mut Vec<u8>) -> Result<(), NoMemory>
        ensures { OnOk result (bytes.new.items ≡ bytes.old.items ++ header_bytes self) }
    {
        add_word(bytes, self.kind)?;
        add_word(bytes, self.priority)?;
        add_long(bytes, self.bits)?;
        add_word(bytes, self.size)?;
        Ok(())
    }

    /// The header at the front, and what is after it.
    #[tactic(auto, unfolding(crate::specs::Held::header_in, crate::specs::Held::header_bytes))]
    fn read(bytes: &[u8]) -> Option<(Header, &[u8])>
        ensures value { MatchOption result (header_in bytes.now ≡ None)
            (λ p. header_in bytes.now ≡ Some (p.0, p.1.now)) }
        ensures spelled { IfSome result (λ p. header_bytes p.0 ++ p.1.now ≡ bytes.now) }
    {
        let (kind, bytes) = take_word(bytes)?;
        let (priority, bytes) = take_word(bytes)?;
        let (bits, bytes) = take_long(bytes)?;
        let (size, bytes) = take_word(bytes)?;
        Some((
            Header {
                kind,
                priority,
                bits,
                size,
            },
            bytes,
        ))
    }
}

/// Adds the bytes of a message.
#[tactic(auto, unfolding(crate::specs::Held::message_bytes))]
pub fn add_message(bytes: &mut Vec<u8>, message: &Outgoing) -> Result<(), NoMemory>
    requires { length message.now.payload < 65536 }
    ensures { OnOk result (bytes.new.items ≡ bytes.old.items ++ message_bytes message.now) }
{
    Header::of(message).add_to(bytes)?;
    bytes.extend_from_slice(message.payload.as_bytes())?;
    Ok(())
}

/// The message at the front, and what is after it.
#[tactic(auto, unfolding(crate::specs::Held::front_of, crate::specs::Held::message_bytes))]
pub fn front_of(alloc: Global, bytes: &[u8]) -> Result<Option<(Outgoing, &[u8])>, NoMemory>
    ensures value { IfOk result (λ front. MatchOption front (front_of bytes.now ≡ None)
        (λ p. front_of bytes.now ≡ Some (p.0, p.1.now))) }
    ensures spelled { IfOk result
        (λ front. IfSome front (λ p. message_bytes p.0 ++ p.1.now ≡ bytes.now)) }
    ensures fits { IfOk result (λ front. IfSome front (λ p. Fits p.0)) }
{
    let Some((header, bytes)) = Header::read(bytes) else {
        return Ok(None);
    };
    let size = header.size as usize;
    if bytes.len() < size {
        return Ok(None);
    }
    let (payload, rest) = bytes.split_at(size);
    let message = Outgoing {
        kind: header.kind.cast_signed(),
        priority: header.priority.cast_signed(),
        bits: header.bits,
        payload: Text::from_bytes(alloc, payload)?,
    };
    Ok(Some((message, rest)))
}
