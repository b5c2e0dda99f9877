//! Fields at the end of bytes. After an `Err`, memory ran out, and a part of the field may stand there.

ghost use Rattle.std.specs.Prelude.{◌≡◌, ◌+◌, ◌<◌, ◌≤◌, ◌^◌, ◌++◌, length, OnOk};
ghost use Rattle.arrayvec.specs.ArrayVec.{array_vec_len};
ghost use Rattle.stored_fields.specs.Spelling.{FitsField, RequestInRange, field, flag as flag_byte, i64 as i64_bytes, request as request_bytes, u16 as u16_bytes, u32 as u32_bytes, u64 as u64_bytes, u8 as u8_bytes};

use arrayvec::ArrayVec;
use cs_base::{Bytes, Micros, NodeId, ReqId};
use std::alloc::AllocError;

pub fn write_u8(out: &mut Vec<u8>, n: u8) -> Result<(), AllocError>
    ensures { OnOk result (out.new.items ≡ out.old.items ++ u8_bytes n) }
{
    out.push(n)?;
    Ok(())
}

#[tactic(auto, unfolding(crate::specs::Spelling::u16))]
pub fn write_u16(out: &mut Vec<u8>, n: u16) -> Result<(), AllocError>
    ensures { OnOk result (out.new.items ≡ out.old.items ++ u16_bytes n) }
{
    out.extend_from_slice(&n.to_be_bytes())
}

#[tactic(auto, unfolding(crate::specs::Spelling::u32))]
pub fn write_u32(out: &mut Vec<u8>, n: u32) -> Result<(), AllocError>
    ensures { OnOk result (out.new.items ≡ out.old.items ++ u32_bytes n) }
{
    out.extend_from_slice(&n.to_be_bytes())
}

#[tactic(auto, unfolding(crate::specs::Spelling::u64))]
pub fn write_u64(out: &mut Vec<u8>, n: u64) -> Result<(), AllocError>
    ensures { OnOk result (out.new.items ≡ out.old.items ++ u64_bytes n) }
{
    out.extend_from_slice(&n.to_be_bytes())
}

#[tactic(auto, unfolding(crate::specs::Spelling::i64, crate::specs::Spelling::u64))]
pub fn write_i64(out: &mut Vec<u8>, n: i64) -> Result<(), AllocError>
    ensures { OnOk result (out.new.items ≡ out.old.items ++ i64_bytes n) }
{
    out.extend_from_slice(&n.to_be_bytes())
}

/// A byte 0 for no and 1 for yes.
pub fn write_flag(out: &mut Vec<u8>, flag: bool) -> Result<(), AllocError>
    ensures { OnOk result (out.new.items ≡ out.old.items ++ flag_byte flag) }
{
    write_u8(out, u8::from(flag))
}

/// A node's number.
pub fn write_node(out: &mut Vec<u8>, node: NodeId) -> Result<(), AllocError>
    ensures written { OnOk result (out.new.items ≡ out.old.items ++ u8_bytes node) }
    ensures in_range { node ≤ 6 }
{
    let number = node.number();
    write_u8(out, number)
}

/// The node and the time of a request.
pub fn write_request(out: &mut Vec<u8>, request: ReqId) -> Result<(), AllocError>
    ensures written { OnOk result (out.new.items ≡ out.old.items ++ request_bytes request) }
    ensures in_range { RequestInRange request }
{
    let time = request.time.count();
    write_node(out, request.node)?;
    write_u64(out, time)
}

/// Bytes behind those that are there.
fn append<const N: usize>(front: &mut ArrayVec<u8, N>, bytes: &[u8])
    requires { array_vec_len front.old + length bytes.now ≤ N }
    ensures items { front.new.items ≡ front.old.items ++ bytes.now }
    ensures len { array_vec_len front.new ≡ array_vec_len front.old + length bytes.now }
{
    let _fits = front.try_extend_from_slice(bytes);
}

#[tactic(auto, unfolding(crate::specs::Spelling::u32))]
fn tagged_length(tag: u8, length: u32) -> ArrayVec<u8, 5>
    ensures { result.items ≡ u8_bytes tag ++ u32_bytes length }
{
    let mut front = ArrayVec::new();
    append(&mut front, &[tag]);
    append(&mut front, &length.to_be_bytes());
    front
}

/// A tag, and a byte field behind it.
#[inline(always)]
pub fn write_tagged_field(out: &mut Vec<u8>, tag: u8, content: &Bytes) -> Result<(), AllocError>
    requires { FitsField content.now }
    ensures { OnOk result (out.new.items ≡ out.old.items ++ u8_bytes tag ++ field content.now) }
{
    let content = content.as_slice();
    out.extend_from_slice(tagged_length(tag, content.len() as u32).as_slice())?;
    out.extend_from_slice(content)
}

#[tactic(auto, unfolding(crate::specs::Spelling::i64, crate::specs::Spelling::u64))]
fn stamps(timestamp: i64, submitted: Micros, request: ReqId) -> ArrayVec<u8, 25>
    ensures written { result.items ≡ i64_bytes timestamp ++ u64_bytes submitted ++ request_bytes request }
    ensures submitted { submitted < 2 ^ 64 }
    ensures request { RequestInRange request }
{
    let mut stamps = ArrayVec::new();
    append(&mut stamps, &timestamp.to_be_bytes());
    append(&mut stamps, &submitted.count().to_be_bytes());
    append(&mut stamps, &[request.node.number()]);
    append(&mut stamps, &request.time.count().to_be_bytes());
    stamps
}

/// A timestamp, a submission time and a request, in one piece.
pub fn write_stamps(
    out: &mut Vec<u8>,
    timestamp: i64,
    submitted: Micros,
    request: ReqId,
) -> Result<(), AllocError>
    ensures written { OnOk result (out.new.items ≡ out.old.items ++ i64_bytes timestamp ++ u64_bytes submitted ++ request_bytes request) }
    ensures submitted { submitted < 2 ^ 64 }
    ensures request { RequestInRange request }
{
    out.extend_from_slice(stamps(timestamp, submitted, request).as_slice())
}

/// A byte field: its length, and the bytes.
pub fn write_field(out: &mut Vec<u8>, content: &Bytes) -> Result<(), AllocError>
    requires { FitsField content.now }
    ensures { OnOk result (out.new.items ≡ out.old.items ++ field content.now) }
{
    let content = content.as_slice();
    write_u32(out, content.len() as u32)?;
    out.extend_from_slice(content)
}
