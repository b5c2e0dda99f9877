//! Fields at the front of bytes.

ghost use Rattle.std.specs.Prelude.{◌≡◌, length};
ghost use Rattle.stored_fields.specs.Reading.{Gives, content_at, field_at, flag_at, i64_at, node_at, request_at, u16_at, u32_at, u64_at, u8_at};

use crate::fault::Fault;
use cs_base::{Bytes, Micros, NodeId, ReqId};
use std::alloc::Global;

/// Bytes of which one field after another is taken from the front. After an `Err` no more is to be taken.
#[derive(Drop)]
pub struct Reader<'a> {
    /// What is left.
    pub rest: &'a [u8],
}

impl<'a> Reader<'a> {
    pub fn new(bytes: &'a [u8]) -> Reader<'a>
        ensures { result.rest.now ≡ bytes.now }
    {
        Reader { rest: bytes }
    }

    /// How many bytes are left.
    pub fn left(&self) -> usize
        ensures { result ≡ length self.now.rest.now }
    {
        self.rest.len()
    }

    pub fn u8(&mut self) -> Result<u8, Fault>
        ensures { Gives (λ n. (n, self.new.rest.now)) result (u8_at self.old.rest.now) }
    {
        match self.rest {
            [] => Err(Fault::Short(0)),
            [byte, rest @ ..] => {
                self.rest = rest;
                Ok(*byte)
            }
        }
    }

    pub fn u16(&mut self) -> Result<u16, Fault>
        ensures { Gives (λ n. (n, self.new.rest.now)) result (u16_at self.old.rest.now) }
    {
        match self.rest.split_first_chunk::<2>() {
            None => Err(Fault::Short(self.rest.len())),
            Some((digits, rest)) => {
                self.rest = rest;
                Ok(u16::from_be_bytes(*digits))
            }
        }
    }

    pub fn u32(&mut self) -> Result<u32, Fault>
        ensures { Gives (λ n. (n, self.new.rest.now)) result (u32_at self.old.rest.now) }
    {
        match self.rest.split_first_chunk::<4>() {
            None => Err(Fault::Short(self.rest.len())),
            Some((digits, rest)) => {
                self.rest = rest;
                Ok(u32::from_be_bytes(*digits))
            }
        }
    }

    pub fn u64(&mut self) -> Result<u64, Fault>
        ensures { Gives (λ n. (n, self.new.rest.now)) result (u64_at self.old.rest.now) }
    {
        match self.rest.split_first_chunk::<8>() {
            None => Err(Fault::Short(self.rest.len())),
            Some((digits, rest)) => {
                self.rest = rest;
                Ok(u64::from_be_bytes(*digits))
            }
        }
    }

    pub fn i64(&mut self) -> Result<i64, Fault>
        ensures { Gives (λ n. (n, self.new.rest.now)) result (i64_at self.old.rest.now) }
    {
        match self.rest.split_first_chunk::<8>() {
            None => Err(Fault::Short(self.rest.len())),
            Some((digits, rest)) => {
                self.rest = rest;
                Ok(i64::from_be_bytes(*digits))
            }
        }
    }

    /// A byte, 0 for no and 1 for yes.
    #[tactic(auto, unfolding(crate::specs::Reading::flag_at))]
    pub fn flag(&mut self) -> Result<bool, Fault>
        ensures { Gives (λ flag. (flag, self.new.rest.now)) result (flag_at self.old.rest.now) }
    {
        let left = self.rest.len();
        match self.u8()? {
            0 => Ok(false),
            1 => Ok(true),
            _ => Err(Fault::Tag(left)),
        }
    }

    /// A node's number.
    #[tactic(auto, unfolding(crate::specs::Reading::node_at))]
    pub fn node(&mut self) -> Result<NodeId, Fault>
        ensures { Gives (λ node. (node, self.new.rest.now)) result (node_at self.old.rest.now) }
    {
        let left = self.rest.len();
        let number = self.u8()?;
        match NodeId::new(number) {
            Some(node) => Ok(node),
            None => Err(Fault::Tag(left)),
        }
    }

    /// The node and the time of a request.
    #[tactic(auto, unfolding(crate::specs::Reading::request_at))]
    pub fn request(&mut self) -> Result<ReqId, Fault>
        ensures { Gives (λ r. (r, self.new.rest.now)) result (request_at self.old.rest.now) }
    {
        let node = self.node()?;
        let time = self.u64()?;
        Ok(ReqId {
            node,
            time: Micros::new(time),
        })
    }

    /// So many bytes, of a field that began where `left` were left.
    fn content(&mut self, left: usize, length: u32) -> Result<&'a [u8], Fault>
        ensures { Gives (λ c. (c.now, self.new.rest.now)) result (content_at left length self.old.rest.now) }
    {
        let length = length as usize;
        if self.rest.len() < length {
            return Err(Fault::Short(left));
        }
        let (content, rest) = self.rest.split_at(length);
        self.rest = rest;
        Ok(content)
    }

    /// A byte field: its length, and that many bytes, which are copied.
    #[tactic(auto, unfolding(crate::specs::Reading::field_at))]
    pub fn field(&mut self, alloc: Global) -> Result<Bytes, Fault>
        ensures { Gives (λ content. (content, self.new.rest.now)) result (field_at self.old.rest.now) }
    {
        let left = self.rest.len();
        let length = self.u32()?;
        let content = self.content(left, length)?;
        Ok(Bytes::from_slice(alloc, content)?)
    }
}
