//! The pairs of a path from its last one back to main, in nodes that paths share.

ghost use Rattle.std.specs.Prelude.{◌≡◌, ◌++◌, ◌∷◌, ◌-◌, [], ◌⊎◌, length, take, IfOk};
ghost use Rattle.fm_base.specs.Chains.{pairs_of};
ghost use Rattle.fm_base.specs.InStep.{IsInStep};
ghost use Rattle.fm_base.specs.PathOrder.{path_cmp};

use crate::memory::NoMemory;
use std::alloc::Global;
use std::cmp::Ordering;
use std::sync::Arc;

/// The pairs of a path, last first: none for main.
pub(crate) type Chain = Option<Arc<Link>>;

/// The last pair of a path, behind the pairs of the process that started the one there.
pub(crate) struct Link {
    starter: Option<Arc<Link>>,
    pair: (u32, u32),
}

/// Lets a chain go, node by node as long as nobody else has it.
pub(crate) fn let_go(chain: Chain) {
    let mut chain = chain;
    'links: loop {
        match chain {
            None => return,
            Some(last) => match Arc::into_inner(last) {
                None => return,
                Some(
                    Link {
                        starter,
                        pair: _pair,
                    },
                ) => chain = starter,
            },
        }
    }
}

/// The same chain once more, shared.
pub(crate) fn share(chain: &Chain) -> Result<Chain, NoMemory>
    ensures { IfOk result (λ c. pairs_of c ≡ pairs_of chain.now) }
{
    match chain {
        None => Ok(None),
        Some(last) => Ok(Some(Arc::try_clone(last)?)),
    }
}

/// The chain with one more pair, which shares all before it.
pub(crate) fn longer(alloc: Global, starter: &Chain, pair: (u32, u32)) -> Result<Chain, NoMemory>
    ensures { IfOk result (λ c. pairs_of c ≡ pairs_of starter.now ++ pair ∷ []) }
{
    let starter = share(starter)?;
    match Arc::new(alloc, Link { starter, pair }) {
        Ok(last) => Ok(Some(last)),
        Err(failed) => {
            let Link {
                starter,
                pair: _pair,
            } = failed.value;
            let_go(starter);
            Err(NoMemory)
        }
    }
}

/// The chain without its last pair.
pub(crate) fn starter(chain: &Chain) -> Result<Chain, NoMemory>
    ensures { IfOk result (λ c. pairs_of c ≡ take (length (pairs_of chain.now) - 1) (pairs_of chain.now)) }
{
    match chain {
        None => Ok(None),
        Some(last) => share(&last.starter),
    }
}

/// The pairs, first first.
pub(crate) fn pairs(alloc: Global, chain: &Chain) -> Result<Vec<(u32, u32)>, NoMemory>
    ensures { IfOk result (λ v. v.items ≡ pairs_of chain.now) }
{
    let mut pairs = Vec::new(alloc);
    let mut before = chain;
    'links: while let Some(last) = before {
        pairs.push(last.pair)?;
        before = &last.starter;
    }
    pairs.reverse();
    Ok(pairs)
}

// The chain without as many of its last pairs as the other one has.
fn front<'a>(chain: &'a Chain, other: &Chain) -> &'a Chain
    ensures { pairs_of result.now
        ≡ take (length (pairs_of chain.now) - length (pairs_of other.now)) (pairs_of chain.now) }
{
    let mut front = chain;
    let mut left = other;
    'links: loop {
        match left {
            None => return front,
            Some(one) => match front {
                None => return front,
                Some(last) => {
                    left = &one.starter;
                    front = &last.starter;
                }
            },
        }
    }
}

// Two chains that were gone back in step until one was at main, and the order of what was passed.
#[derive(Clone, Copy)]
struct Walked<'a> {
    order: Ordering,
    left: &'a Chain,
    right: &'a Chain,
}

fn in_step<'a>(left: &'a Chain, right: &'a Chain) -> Walked<'a>
    ensures passed { IsInStep (pairs_of left.now) (pairs_of right.now) (pairs_of result.left.now)
        (pairs_of result.right.now) result.order }
    ensures ended { (pairs_of result.left.now ≡ []) ⊎ (pairs_of result.right.now ≡ []) }
{
    let mut order = Ordering::Equal;
    let mut left = left;
    let mut right = right;
    'links: loop {
        match left {
            None => return Walked { order, left, right },
            Some(one) => match right {
                None => return Walked { order, left, right },
                Some(other) => {
                    order = one.pair.cmp(&other.pair).then(order);
                    left = &one.starter;
                    right = &other.starter;
                }
            },
        }
    }
}

/// How two chains stand in path order.
pub(crate) fn order_of_chains(left: &Chain, right: &Chain) -> Ordering
    ensures { result ≡ path_cmp (pairs_of left.now) (pairs_of right.now) }
{
    let walked = in_step(left, right);
    match walked.left {
        None => match walked.right {
            None => walked.order,
            Some(_) => in_step(left, front(right, walked.right))
                .order
                .then(Ordering::Less),
        },
        Some(_) => in_step(front(left, walked.left), right)
            .order
            .then(Ordering::Greater),
    }
}
