//! A certificate from the very text that `to_json` writes.
//!
//! This is for speed alone. What is read here is written again and compared with the bytes, so
//! nothing is promised of it: a text of another form is misshapen here, and is read as JSON.

use crate::certificate::{Certificate, EntryQuestion};
use crate::chain::Chain;
use crate::entries::{Entries, Reason};
use crate::fault::Untaken;
use crate::text::part::JsonPart;
use crate::text::seen::Seen;
use crate::text::whole::no_bodies;
use order_facts::{Node, Nodes};
use prog_tree::Sequence;
use std::alloc::Global;

/// What is still to be read.
#[derive(Drop)]
pub(crate) struct TextCursor<'a> {
    alloc: Global,
    rest: &'a [u8],
}

impl<'a> TextCursor<'a> {
    // Reads a piece, where it comes next.
    fn eat(&mut self, piece: &[u8]) -> bool {
        match self.rest.strip_prefix(piece) {
            Some(rest) => {
                self.rest = rest;
                true
            }
            None => false,
        }
    }

    // Reads a piece that has to come next.
    fn expect(&mut self, piece: &[u8]) -> Result<(), Untaken> {
        if self.eat(piece) {
            Ok(())
        } else {
            Err(Untaken::Misshapen)
        }
    }

    // Reads what stands behind an item of a list: whether one more comes.
    fn has_more(&mut self) -> Result<bool, Untaken> {
        let [first, rest @ ..] = self.rest else {
            return Err(Untaken::Misshapen);
        };
        self.rest = rest;
        match first {
            b',' => Ok(true),
            b']' => Ok(false),
            _ => Err(Untaken::Misshapen),
        }
    }

    // Reads digits, up to the first other byte.
    fn digits(&mut self) -> Result<u64, Untaken> {
        let bytes = self.rest;
        let mut value: u64 = 0;
        for (place, byte) in bytes.iter().enumerate() {
            if !byte.is_ascii_digit() {
                self.rest = &bytes[place..];
                return Ok(value);
            }
            value = with_digit(value, *byte)?;
        }
        Err(Untaken::Misshapen)
    }

    pub(crate) fn small(&mut self) -> Result<u32, Untaken> {
        u32::try_from(self.digits()?).map_err(|_| Untaken::Misshapen)
    }

    // Reads a number with a comma behind it.
    fn small_before_comma(&mut self) -> Result<u32, Untaken> {
        let number = self.small()?;
        self.expect(b",")?;
        Ok(number)
    }

    fn integer(&mut self) -> Result<i64, Untaken> {
        if self.eat(b"-") {
            let number = signed(self.digits()?)?;
            return number.checked_neg().ok_or(Untaken::Misshapen);
        }
        signed(self.digits()?)
    }

    // Reads the letter of a node, and what stands round it.
    fn letter(&mut self) -> Result<u8, Untaken> {
        let [b'[', b'"', letter, b'"', b',', rest @ ..] = self.rest else {
            return Err(Untaken::Misshapen);
        };
        self.rest = rest;
        Ok(*letter)
    }

    pub(crate) fn node(&mut self) -> Result<Node, Untaken> {
        let node = match self.letter()? {
            b'm' => Node::Mine(self.small()? as usize),
            b'u' => Node::MineUnknown(self.small()? as usize),
            b't' => Node::Theirs(self.small()? as usize),
            b'v' => Node::TheirsUnknown(self.small()? as usize),
            b'n' => Node::Number(self.integer()?),
            _ => return Err(Untaken::Misshapen),
        };
        self.expect(b"]")?;
        Ok(node)
    }

    // Reads nodes, of which one and two take no memory.
    fn nodes(&mut self) -> Result<Nodes, Untaken> {
        let first = self.node()?;
        if !self.has_more()? {
            return Ok(Nodes::of_one(first));
        }
        let second = self.node()?;
        if !self.has_more()? {
            return Ok(Nodes::of_two(first, second));
        }
        self.nodes_behind(first, second)
    }

    // Reads the nodes behind two.
    fn nodes_behind(&mut self, first: Node, second: Node) -> Result<Nodes, Untaken> {
        let mut nodes = Vec::from_slice(self.alloc, &[first, second])?;
        self.parts(&mut nodes)?;
        Ok(Nodes::from_vec(nodes))
    }

    pub(crate) fn chain(&mut self) -> Result<Chain, Untaken> {
        if self.eat(b"[]") {
            return chain_of(Nodes::from_vec(Vec::new(self.alloc)));
        }
        self.expect(b"[")?;
        chain_of(self.nodes()?)
    }

    // Reads parts up to the end of their list. Each takes a byte at least, so as many turns as
    // bytes are left are enough.
    fn parts<T: JsonPart>(&mut self, parts: &mut Vec<T>) -> Result<(), Untaken> {
        for _turn in 0..self.rest.len() {
            parts.push(T::read(self)?)?;
            if !self.has_more()? {
                return Ok(());
            }
        }
        Err(Untaken::Misshapen)
    }

    // Reads a list. In a table with one key column the chains of a cover are two.
    fn list<T: JsonPart>(&mut self) -> Result<Sequence<T>, Untaken> {
        if self.eat(b"[]") {
            return Ok(Sequence::new(self.alloc));
        }
        self.expect(b"[")?;
        let mut parts = Vec::with_capacity(self.alloc, 2)?;
        self.parts(&mut parts)?;
        Ok(Sequence::from_vec(parts))
    }

    fn question(&mut self) -> Result<EntryQuestion, Untaken> {
        Ok(EntryQuestion {
            x: self.small_before_comma()?,
            a: self.small_before_comma()?,
            y: self.small_before_comma()?,
            b: self.small_before_comma()?,
        })
    }

    // Reads an entry. A reason that was read before is not read again, but shared.
    fn entry(&mut self, entries: &mut Entries, seen: &mut Seen<'a>) -> Result<(), Untaken> {
        let is_apart = self.is_apart()?;
        let question = self.question()?;
        let text = self.rest;
        if let Some((k, rest)) = seen.find(text) {
            if k < entries.len() {
                entries.push_like(question, k)?;
                self.rest = rest;
                return Ok(());
            }
        }
        let reason = if is_apart {
            self.apart()?
        } else {
            self.cover()?
        };
        self.expect(b"]")?;
        seen.keep(text, self.rest.len(), entries.len());
        entries.push(question, reason)?;
        Ok(())
    }

    // Reads the kind of an entry.
    fn is_apart(&mut self) -> Result<bool, Untaken> {
        if self.eat(b"[\"apart\",") {
            return Ok(true);
        }
        self.expect(b"[\"cover\",")?;
        Ok(false)
    }

    fn apart(&mut self) -> Result<Reason, Untaken> {
        Ok(Reason::Apart(self.chain()?))
    }

    fn cover(&mut self) -> Result<Reason, Untaken> {
        Ok(Reason::Cover {
            mine: self.small_before_comma()?,
            theirs: self.small_before_comma()?,
            chains: self.list()?,
        })
    }

    fn entries(&mut self) -> Result<Entries, Untaken> {
        let mut entries = Entries::new(self.alloc);
        if self.eat(b"[]") {
            return Ok(entries);
        }
        self.expect(b"[")?;
        let mut seen = Seen::for_bytes(self.alloc, self.rest.len())?;
        for _turn in 0..self.rest.len() {
            self.entry(&mut entries, &mut seen)?;
            if !self.has_more()? {
                return Ok(entries);
            }
        }
        Err(Untaken::Misshapen)
    }

    // Reads the entries and the levels, with their names.
    fn shared(&mut self) -> Result<(Entries, Sequence<u32>), Untaken> {
        self.expect(b"\"entries\":")?;
        let entries = self.entries()?;
        self.expect(b",\"levels\":")?;
        let levels = self.list()?;
        Ok((entries, levels))
    }

    // Nothing may be left.
    fn end(&self) -> Result<(), Untaken> {
        if self.rest.is_empty() {
            Ok(())
        } else {
            Err(Untaken::Misshapen)
        }
    }

    fn first(&mut self) -> Result<Certificate, Untaken> {
        self.expect(b"{")?;
        let (entries, levels) = self.shared()?;
        self.end()?;
        let bodies = no_bodies(self.alloc, &levels)?;
        Ok(Certificate {
            entries,
            levels,
            bodies,
        })
    }

    fn second(&mut self) -> Result<Certificate, Untaken> {
        self.expect(b"{\"bodies\":")?;
        let bodies = self.list()?;
        self.expect(b",")?;
        let (entries, levels) = self.shared()?;
        self.end()?;
        Ok(Certificate {
            entries,
            levels,
            bodies,
        })
    }
}

// A number with one more digit.
fn with_digit(value: u64, digit: u8) -> Result<u64, Untaken> {
    let unit = u64::from(digit.wrapping_sub(b'0'));
    let more = value.checked_mul(10).ok_or(Untaken::Misshapen)?;
    more.checked_add(unit).ok_or(Untaken::Misshapen)
}

fn signed(digits: u64) -> Result<i64, Untaken> {
    i64::try_from(digits).map_err(|_| Untaken::Misshapen)
}

fn chain_of(nodes: Nodes) -> Result<Chain, Untaken> {
    Chain::from_nodes(nodes).ok_or(Untaken::Misshapen)
}

/// A certificate whose text the bytes may be. They are looked at from their end first.
pub fn compact_candidate(alloc: Global, bytes: &[u8]) -> Result<Certificate, Untaken> {
    let line = bytes.strip_suffix(b"\n").unwrap_or(bytes);
    if let Some(rest) = line.strip_suffix(b",\"version\":1}") {
        let mut cursor = TextCursor { alloc, rest };
        return cursor.first();
    }
    let Some(rest) = line.strip_suffix(b",\"version\":2}") else {
        return Err(Untaken::Misshapen);
    };
    let mut cursor = TextCursor { alloc, rest };
    cursor.second()
}
