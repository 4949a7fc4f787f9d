ghost use Rattle.std.specs.Prelude.{◌≡◌, ◌<◌, ◌^◌, [], ◌∷◌, ◌++◌, false, IfOk, OnOk};
ghost use Rattle.chronicle.specs.History.{entries};
ghost use Rattle.chronicle.specs.Shown.{mine, MayTake};

use chronicle::{Chronicle, Standing, Token};
use std::alloc::{AllocError, Global};
use std::sync::Wait;
use std::test::Fail;
use std::thread::{Threads, join};

// A list of numbers, which represents the numbers that were entered.
#[derive(Drop)]
struct Log {
    items: Vec<u64>,
}

impl Standing for Log {
    ghost use Rattle.std.specs.Prelude.{◌≡◌, []};
    ghost use Rattle.chronicle.specs.Frame.{empty_frame};

    type Entry = u64;

    ghost stands = { λ v es. v.items.items ≡ es };

    ghost opening = { λ v. v.items.items };

    ghost frame = { λ _. empty_frame };
}

fn enter_one<R: Wait>(
    rt: &R,
    log: &Chronicle<Log>,
    token: &mut Token<u64>,
    number: u64,
) -> Result<(), AllocError>
    requires { (token.old.identity ≡ log.now) × MayTake token.old }
    ensures rests { (token.new.identity ≡ log.now) × MayTake token.new }
    ensures mine { OnOk result (entries (mine token.new) ≡ entries (mine token.old) ++ number ∷ []) }
{
    let mut value = log.take(rt, token);
    match value.items.push(number) {
        Ok(()) => {
            log.enter(token, number);
            log.give(token, value);
            Ok(())
        }
        Err(_) => {
            log.give(token, value);
            Err(AllocError)
        }
    }
}

// Enters each number while holding the lock for it alone. The token's own entries are then exactly these, in order.
fn enter_all<R: Wait>(
    rt: &R,
    log: &Chronicle<Log>,
    mut token: Token<u64>,
    numbers: &[u64],
) -> Result<Token<u64>, AllocError>
    requires { (token.identity ≡ log.now) × MayTake token × (mine token ≡ []) }
    ensures { IfOk result (λ t. (t.identity ≡ log.now) × MayTake t × (entries (mine t) ≡ numbers.now)) }
{
    for &number in numbers {
        enter_one(rt, log, &mut token, number)?;
    }
    Ok(token)
}

fn numbers_from(alloc: Global, start: u64) -> Result<Vec<u64>, AllocError>
    requires { start < 2 ^ 32 }
{
    let mut numbers = Vec::new(alloc);
    for i in 0..100u64 {
        numbers.push(start + i)?;
    }
    Ok(numbers)
}

// Enters each list in a thread of its own, with one of two tokens, which the first one then meets.
fn enter_both<R: Threads + Wait + Sync>(
    rt: &R,
    log: &Chronicle<Log>,
    first: &mut Token<u64>,
    tokens: (Token<u64>, Token<u64>),
    low: &[u64],
    high: &[u64],
) -> Result<(), AllocError>
    requires first { (first.old.identity ≡ log.now) × MayTake first.old }
    requires one { (tokens.0.identity ≡ log.now) × MayTake tokens.0 × (mine tokens.0 ≡ []) }
    requires two { (tokens.1.identity ≡ log.now) × MayTake tokens.1 × (mine tokens.1 ≡ []) }
    ensures first { (first.new.identity ≡ log.now) × MayTake first.new }
{
    let (one, two) = tokens;
    let (one, two) = join(
        rt,
        || -> Result<Token<u64>, AllocError>
            requires { (one.identity ≡ log.now) × MayTake one × (mine one ≡ []) }
            ensures { IfOk result (λ t. (t.identity ≡ log.entry.now) × MayTake t × (entries (mine t) ≡ low.entry.now)) }
        { enter_all(rt, log, one, low) },
        || -> Result<Token<u64>, AllocError>
            requires { (two.identity ≡ log.now) × MayTake two × (mine two ≡ []) }
            ensures { IfOk result (λ t. (t.identity ≡ log.entry.now) × MayTake t
                × (entries (mine t) ≡ high.entry.now)) }
        { enter_all(rt, log, two, high) },
    );
    log.meet(first, one?);
    log.meet(first, two?);
    Ok(())
}

// Returns whether these are the numbers of both lists, those of each list in order.
fn has_both(items: &[u64], low: &[u64], high: &[u64]) -> bool {
    let mut lows = items.iter().filter(|&&n| n < 1000);
    let mut highs = items.iter().filter(|&&n| n >= 1000);
    items.len() == 200
        && low.iter().all(|n| lows.next() == Some(n))
        && high.iter().all(|n| highs.next() == Some(n))
}

// Returns whether a log has what two threads entered, and its tokens are numbered in order.
fn two_threads<R: Threads + Wait + Sync>(
    rt: &R,
    alloc: Global,
    low: &[u64],
    high: &[u64],
) -> Result<bool, Fail> {
    let items = Vec::new(alloc);
    let Ok((log, mut first)) = Chronicle::open(alloc, Log { items }) else {
        return Err("open".into());
    };
    let one = log.token(&mut first);
    let two = log.token(&mut first);
    let are_numbered = first.number() == 0 && one.number() == 1 && two.number() == 2;
    enter_both(rt, &log, &mut first, (one, two), low, high)?;
    let value = log.end(rt, &mut first);
    let _note = log.note(&mut first);
    Ok(are_numbered && has_both(&value.items, low, high))
}

fn enter_a_hundred_each<R: Threads + Wait + Sync>(rt: &R, alloc: Global) -> Result<bool, Fail> {
    let low = numbers_from(alloc, 0)?;
    let high = numbers_from(alloc, 1000)?;
    two_threads(rt, alloc, &low, &high)
}

#[test]
fn two_threads_enter_a_hundred_each(rt: HostRuntime) -> Result<(), Fail> {
    assert!(rt; enter_a_hundred_each(&rt, rt.alloc())?);
    Ok(())
}
