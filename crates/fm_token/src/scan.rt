//! The longest token at the front of a text.

ghost use Rattle.std.specs.Prelude.{◌≡◌, ◌+◌, ◌<◌, ◌≤◌, IfOk, IfSome, None, false, length};
ghost use Rattle.std.specs.List.{prefix_len};
ghost use Rattle.fm_base.specs.Letters.{is_digit, is_name_byte};
ghost use Rattle.fm_token.specs.Cutting.{longest};
ghost use Rattle.fm_token.specs.Steps.{candidate, constant_end, dot_end, sign_length};

use crate::front::front;
use crate::pieces::{is_waiting, token_at};
use fm_base::{NoMemory, Token, is_name_byte};
use std::alloc::Global;

fn name_length(bytes: &[u8]) -> usize
    ensures at { result ≡ prefix_len is_name_byte bytes.now }
    ensures within { result ≤ length bytes.now }
{
    bytes.iter().take_while(|byte| is_name_byte(**byte)).count()
}

fn digits_length(bytes: &[u8]) -> usize
    ensures at { result ≡ prefix_len is_digit bytes.now }
    ensures within { result ≤ length bytes.now }
{
    bytes
        .iter()
        .take_while(|byte| byte.is_ascii_digit())
        .count()
}

// From what stands behind the first apostrophe.
fn constant_end(behind: &[u8]) -> Option<usize>
    ensures at { result ≡ constant_end false 1 None behind.now }
    ensures within { IfSome result (λ n. (0 < n) × (n ≤ length behind.now + 1)) }
{
    let mut end = None;
    let mut waiting = false;
    let mut n = 1;
    'bytes: for byte in behind {
        if waiting && *byte != b'\'' {
            return end;
        }
        waiting = is_waiting(waiting, *byte);
        n += 1;
        if waiting {
            end = Some(n);
        }
    }
    end
}

// From what stands behind the first dot.
fn dot_end(behind: &[u8]) -> Option<usize>
    ensures at { result ≡ dot_end 1 behind.now }
    ensures within { IfSome result (λ n. (0 < n) × (n ≤ length behind.now + 1)) }
{
    let mut n = 1;
    'bytes: for byte in behind {
        n += 1;
        if *byte == b'.' {
            return Some(n);
        }
    }
    None
}

fn sign_length(first: u8, behind: &[u8]) -> usize
    ensures at { result ≡ sign_length first behind.now }
    ensures within { (0 < result) × (result ≤ length behind.now + 1) }
{
    match behind.first() {
        None => 1,
        Some(next) => { if first == b'*' && *next == b'*' { 2 } else { 1 } }
    }
}

// The length of the one beginning that may be the longest token.
#[tactic(auto, unfolding(crate::specs::Steps::candidate))]
fn candidate(text: &[u8]) -> Option<usize>
    ensures at { result ≡ candidate text.now }
    ensures within { IfSome result (λ n. (0 < n) × (n ≤ length text.now)) }
{
    let (first, behind) = front(text)?;
    if first.is_ascii_uppercase() {
        Some(name_length(behind) + 1)
    } else if first.is_ascii_digit() {
        Some(digits_length(behind) + 1)
    } else if first == b'\'' {
        constant_end(behind)
    } else if first == b'.' {
        dot_end(behind)
    } else {
        Some(sign_length(first, behind))
    }
}

/// The longest token that the text begins with, behind its length. `None` where no beginning is a
/// token.
pub fn longest(alloc: Global, text: &[u8]) -> Result<Option<(usize, Token)>, NoMemory>
    ensures longest { IfOk result (λ o. o ≡ longest text.now) }
    ensures within { IfOk result (λ o. IfSome o (λ found. (0 < found.0) × (found.0 ≤ length text.now))) }
{
    let Some(n) = candidate(text) else {
        return Ok(None);
    };
    let (piece, _) = text.split_at(n);
    match token_at(alloc, piece)? {
        Some(token) => Ok(Some((n, token))),
        None => Ok(None),
    }
}
