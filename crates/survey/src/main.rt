//! Sends every command to every kind of drive and prints the answers, then cuts power at every step of a write.

#![tactic(auto)]

mod cuts;
mod every;

use caching::CachingDisk;
use cuts::cut_writes;
use every::show_all;
use host::{caching_image, plain_image};
use plain::PlainDisk;
use port::Port;

fn survey(rt: &HostRuntime) -> anyhow::Result<()> {
    let heap = rt.alloc();
    let mut plain = PlainDisk::new(plain_image(heap, 8, &[6])?);
    println!(rt; "plain disk of 8 blocks, block 6 unreadable")?;
    show_all(rt, &mut plain)?;
    let mut caching = CachingDisk::new(caching_image(heap, 8, &[6])?, true, true);
    println!(rt; "caching disk of 8 blocks, block 6 unreadable")?;
    show_all(rt, &mut caching)?;
    let image = caching_image(heap, 8, &[6])?;
    let mut port = Port::new(CachingDisk::new(image, true, false), 2);
    println!(rt; "port of 2 blocks over a caching disk that takes no write through its cache")?;
    show_all(rt, &mut port)?;
    cut_writes(rt)
}

fn main(rt: HostRuntime) -> anyhow::Result<()> {
    survey(&rt)
}
