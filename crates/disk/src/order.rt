//! What a disk takes a task file for, by what it claims.

ghost use Rattle.std.specs.Prelude.{◌≡◌, if◌then◌else◌};
ghost use Rattle.std.specs.Int.NonZero.{non_zero_u32_get};
ghost use Rattle.ata.specs.Words.{count_limit};
ghost use Rattle.ata.specs.Commands.{taken, named, unknown, switched_by};
ghost use Rattle.disk.specs.Claimed.{words_for};
ghost use Rattle.disk.specs.Orders.{meant};

use crate::words::Claims;
use ata::{AtaCommand, Feature, TaskFile};
use std::num::NonZeroU32;

/// A command by what it does. One that moves blocks moves some.
// `Unknown` is a case like the others, as it is in what a drive takes a task file for.
#[derive(Clone, Copy)]
pub enum Order {
    Identify,
    Read(NonZeroU32),
    Verify(NonZeroU32),
    Write { through: bool, count: NonZeroU32 },
    Flush,
    Switch(bool),
    Idle,
    Unknown,
}

/// The blocks that a count names: 0 stands for the most that the count of a command of this width could name.
pub fn blocks_named(count: u16, wide: bool) -> NonZeroU32
    ensures { non_zero_u32_get result ≡ named (count_limit wide) count }
{
    let most = if wide { 65536 } else { 256 };
    NonZeroU32::new(if count == 0 { most } else { u32::from(count) }).unwrap()
}

/// The order if the disk claims it.
fn claimed(claim: bool, order: Order) -> Order
    ensures { meant result ≡ (if claim then meant order else unknown) }
{
    if claim { order } else { Order::Unknown }
}

/// What SET FEATURES asks of a cache.
fn switch_by(feature: Feature) -> Order
    ensures { meant result ≡ switched_by feature }
{
    match feature {
        Feature::EnableWriteCache => Order::Switch(true),
        Feature::DisableWriteCache => Order::Switch(false),
        Feature::Absent | Feature::Unlisted => Order::Unknown,
    }
}

/// What a disk with these claims takes a task file for.
pub fn order_of(claims: Claims, task: TaskFile) -> Order
    ensures { meant result ≡ taken (words_for claims) task.command task.feature task.count }
{
    let short = blocks_named(task.count, false);
    let long = blocks_named(task.count, true);
    let wide = claims.wide;
    match task.command {
        AtaCommand::IdentifyDevice => Order::Identify,
        AtaCommand::ReadDma => Order::Read(short),
        AtaCommand::ReadDmaExt => claimed(wide, Order::Read(long)),
        AtaCommand::WriteDma => Order::Write {
            through: false,
            count: short,
        },
        AtaCommand::WriteDmaExt => claimed(
            wide,
            Order::Write {
                through: false,
                count: long,
            },
        ),
        AtaCommand::WriteDmaFuaExt => claimed(
            claims.writes_through(),
            Order::Write {
                through: true,
                count: long,
            },
        ),
        AtaCommand::ReadVerify => Order::Verify(short),
        AtaCommand::ReadVerifyExt => claimed(wide, Order::Verify(long)),
        AtaCommand::FlushCache => Order::Flush,
        AtaCommand::FlushCacheExt => claimed(wide, Order::Flush),
        AtaCommand::SetFeatures => claimed(claims.cache, switch_by(task.feature)),
        AtaCommand::StandbyImmediate | AtaCommand::CheckPowerMode => Order::Idle,
        AtaCommand::Unlisted => Order::Unknown,
    }
}
