use anyhow::{Context, Result, bail, ensure};
use eviction::Bounded;
use std::alloc::Global;
use std::hash::RandomState;
use std::time::{Duration, Instant};

/// How long an entry is.
const LENGTH: usize = 1024;

/// How many calls are timed.
const CALLS: u64 = 20_000;

/// An entry's bytes.
fn entry(rt: &HostRuntime) -> Result<Vec<u8>> {
    Ok(vec![in rt.alloc(); 0x61; LENGTH]?)
}

/// Pins one key.
fn pin(store: &mut Bounded<u64, Global>, key: u64) -> Result<()> {
    if store.pins(&key) == u64::MAX {
        bail!("pinned too often");
    }
    store.pin_all(&[key])?;
    Ok(())
}

/// A full store of this many entries. The keys of the pinned ones, a tenth, begin at one of them.
fn filled(rt: &HostRuntime, entries: u64, pinned_from: u64) -> Result<Bounded<u64, Global>> {
    let limit = entries.saturating_mul(LENGTH as u64).min(1 << 62);
    let mut store = Bounded::new(rt.alloc(), RandomState::new(rt)?, limit, 0)?;
    for key in 0..entries {
        store.put(key, entry(rt)?)?;
    }
    let pinned_to = pinned_from.saturating_add(entries / 10).min(entries);
    for key in pinned_from..pinned_to {
        pin(&mut store, key)?;
    }
    Ok(store)
}

/// How long puts of new entries took, each of which evicts an old one.
fn time_puts(
    rt: &HostRuntime,
    store: &mut Bounded<u64, Global>,
    calls: u64,
    first: u64,
) -> Result<Duration> {
    let start = Instant::now(rt)?;
    for call in 0..calls {
        store.put(first.saturating_add(call), entry(rt)?)?;
    }
    Ok(start.elapsed(rt)?)
}

/// How long gets of held entries took.
fn time_gets(
    rt: &HostRuntime,
    store: &mut Bounded<u64, Global>,
    first: u64,
    entries: u64,
) -> Result<Duration> {
    let start = Instant::now(rt)?;
    for call in 0..CALLS {
        // Far apart, and each once.
        let step = call.wrapping_mul(7_919).checked_rem(entries).unwrap_or(0);
        let found = store.get(&first.saturating_add(step));
        ensure!(
            found.is_some_and(|bytes| bytes.len() == LENGTH),
            "an entry is missing"
        );
    }
    Ok(start.elapsed(rt)?)
}

/// Nanoseconds a call.
fn each(time: Duration, calls: u64) -> u128 {
    time.as_nanos().checked_div(u128::from(calls)).unwrap_or(0)
}

/// Prints how long puts and gets of 1 KiB take in a full store of this many entries, a tenth
/// pinned.
pub fn measure_store(rt: &HostRuntime, entries: u64) -> Result<()> {
    ensure!(entries >= CALLS.saturating_mul(2), "too few entries");
    let newest = entries - entries / 10;
    let mut store = filled(rt, entries, newest)?;
    let puts = each(time_puts(rt, &mut store, CALLS, entries)?, CALLS);
    let gets = each(time_gets(rt, &mut store, CALLS, entries)?, CALLS);
    ensure!(
        store.held_bytes() == entries.saturating_mul(LENGTH as u64),
        "not full"
    );
    println!(rt; "{entries} entries, the newest tenth pinned: put {puts} ns, get {gets} ns")?;
    let mut store = filled(rt, entries, 0)?;
    let calls = CALLS / 100;
    let puts = each(time_puts(rt, &mut store, calls, entries)?, calls);
    println!(rt; "{entries} entries, the oldest tenth pinned: put {puts} ns").context("printing")
}
