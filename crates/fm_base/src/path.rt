//! Where a process stands in the tree of processes, and the names of channels.

ghost use Rattle.std.specs.Prelude.{◌≡◌, [], ◌∷◌, ◌++◌, ◌-◌, length, take, IfOk, OnOk};
ghost use Rattle.std.specs.Cmp.{IsTotalOrder};
ghost use Rattle.std.specs.Fmt.{decimal};
ghost use Rattle.std.specs.FinMap.{IsAntisymmetric};
ghost use Rattle.fm_base.specs.Texts.{path_text, child_text, channel_text};
ghost use Rattle.fm_base.specs.PathOrder.{path_cmp, channel_cmp};

use crate::chain::{Chain, let_go, longer, order_of_chains, pairs, share, starter};
use crate::memory::NoMemory;
use std::alloc::Global;
use std::cmp::Ordering;
use std::marker::Model;

/// The pairs of block and index, each from 1, that lead from main to a process. Contracts see it
/// as the list of these pairs. Paths share the pairs that they have in common by their making.
pub struct Path {
    chain: Chain,
}

impl Drop for Path {
    fn drop(self) {
        let Path { chain } = self;
        let_go(chain);
    }
}

impl Model for Path {
    ghost use Rattle.std.specs.Prelude.{List, ℕ};
    ghost use Rattle.fm_base.specs.Chains.{pairs_of};

    ghost Value = { List (ℕ × ℕ) };

    ghost view = { λ p. pairs_of p.chain };
}

// Adds a mark and a number in decimal.
fn push_number(alloc: Global, out: &mut Vec<u8>, mark: u8, number: u32) -> Result<(), NoMemory>
    ensures { OnOk result (out.new.items ≡ out.old.items ++ (mark ∷ decimal number)) }
{
    out.push(mark)?;
    out.extend_from_slice(number.to_string(alloc)?.as_bytes())?;
    Ok(())
}

fn push_child(alloc: Global, out: &mut Vec<u8>, pair: (u32, u32)) -> Result<(), NoMemory>
    ensures { OnOk result (out.new.items ≡ out.old.items ++ child_text pair) }
{
    push_number(alloc, out, b'/', pair.0)?;
    push_number(alloc, out, b'.', pair.1)
}

impl Path {
    /// The path of main. Takes no memory.
    pub fn main(_alloc: Global) -> Path
        ensures { result ≡ [] }
    {
        Path { chain: None }
    }

    /// The path with one more pair: the child of this index in this block.
    pub fn child(&self, alloc: Global, block: u32, index: u32) -> Result<Path, NoMemory>
        ensures { IfOk result (λ p. p ≡ self.now ++ (block, index) ∷ []) }
    {
        Ok(Path {
            chain: longer(alloc, &self.chain, (block, index))?,
        })
    }

    /// The path of the process that started the one here; that of main is its own.
    pub fn starter(&self) -> Result<Path, NoMemory>
        ensures { IfOk result (λ p. p ≡ take (length self.now - 1) self.now) }
    {
        Ok(Path {
            chain: starter(&self.chain)?,
        })
    }

    /// The same path once more. Takes no memory but a count, which can't be full on any machine.
    pub fn copy(&self, _alloc: Global) -> Result<Path, NoMemory>
        ensures { IfOk result (λ p. p ≡ self.now) }
    {
        Ok(Path {
            chain: share(&self.chain)?,
        })
    }

    /// The text of a path: `main`, and `/b.i` for each pair.
    pub fn text(&self, alloc: Global) -> Result<Vec<u8>, NoMemory>
        ensures { IfOk result (λ v. v.items ≡ path_text self.now) }
    {
        let mut out = Vec::from_slice(alloc, b"main")?;
        let pairs = pairs(alloc, &self.chain)?;
        'pairs: for pair in &pairs {
            push_child(alloc, &mut out, *pair)?;
        }
        Ok(out)
    }
}

impl PartialEq for Path {
    ghost use Rattle.std.specs.Cmp.{partial_equiv_from_equiv};
    ghost use Rattle.fm_base.specs.PathOrder.{path_eq};
    ghost use Rattle.fm_base.specs.PathOrderLaws.{path_equiv};

    ghost eq = { path_eq };

    ghost laws = { partial_equiv_from_equiv path_equiv };

    fn eq(&self, other: &Path) -> bool {
        order_of_chains(&self.chain, &other.chain).is_eq()
    }
}

impl Eq for Path {
    ghost use Rattle.fm_base.specs.PathOrderLaws.{path_equiv};

    ghost laws = { path_equiv };
}

impl PartialOrd for Path {
    ghost use Rattle.std.specs.Prelude.{Some};
    ghost use Rattle.fm_base.specs.PathOrder.{path_cmp};
    ghost use Rattle.fm_base.specs.PathOrderLaws.{path_po};

    ghost partial_cmp = { λ x y. Some (path_cmp x y) };

    ghost laws = { path_po };

    fn partial_cmp(&self, other: &Path) -> Option<Ordering> {
        Some(self.cmp(other))
    }
}

impl Ord for Path {
    ghost use Rattle.std.specs.Prelude.{refl};
    ghost use Rattle.fm_base.specs.PathOrder.{path_cmp};
    ghost use Rattle.fm_base.specs.PathOrderLaws.{path_total, path_ties};

    ghost cmp = { path_cmp };

    ghost total = { path_total };

    ghost matches_partial_cmp = { λ x y. refl };

    ghost matches_eq = { path_ties };

    fn cmp(&self, other: &Path) -> Ordering {
        order_of_chains(&self.chain, &other.chain)
    }
}

/// A channel: the process that made it, and its number among that process's channels, from 1.
#[derive(PartialEq, Eq, PartialOrd, Ord)]
pub struct ChanName {
    /// The path of the maker.
    pub maker: Path,
    /// The number among the maker's channels, from 1.
    pub number: u32,
}

impl Drop for ChanName {
    fn drop(self) {
        let ChanName {
            maker: _maker,
            number: _number,
        } = self;
    }
}

impl ChanName {
    /// The same name once more.
    pub fn copy(&self, alloc: Global) -> Result<ChanName, NoMemory>
        ensures { IfOk result (λ c. c ≡ self.now) }
    {
        Ok(ChanName {
            maker: self.maker.copy(alloc)?,
            number: self.number,
        })
    }

    /// The text of a channel's name: the path of its maker, `:`, and its number.
    pub fn text(&self, alloc: Global) -> Result<Vec<u8>, NoMemory>
        ensures { IfOk result (λ v. v.items ≡ channel_text self.now.maker self.now.number) }
    {
        let mut out = self.maker.text(alloc)?;
        push_number(alloc, &mut out, b':', self.number)?;
        Ok(out)
    }
}

/// How two paths stand in path order, which is the order of `Path`.
pub fn order_of_paths(a: &Path, b: &Path) -> Ordering
    ensures { result ≡ path_cmp a.now b.now }
{
    a.cmp(b)
}

/// How two channels stand in their order, by maker and then by number, which is that of `ChanName`.
pub fn order_of_channels(left: &ChanName, right: &ChanName) -> Ordering
    ensures { result ≡ channel_cmp left.now right.now }
{
    left.cmp(right)
}

/// Path order and the order of channels are total, and what compares equal is one.
pub fn orders_are_total_and_exact()
    ensures paths_total { IsTotalOrder path_cmp }
    ensures paths_exact { IsAntisymmetric path_cmp }
    ensures channels_total { IsTotalOrder channel_cmp }
    ensures channels_exact { IsAntisymmetric channel_cmp }
{}
