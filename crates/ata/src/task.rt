//! The task file: which command, on which blocks.

/// The commands that a drive may take; each is written as its code.
#[derive(Clone, Copy, PartialEq, Eq, Debug)]
pub enum AtaCommand {
    IdentifyDevice = 0xEC,
    ReadDma = 0xC8,
    ReadDmaExt = 0x25,
    WriteDma = 0xCA,
    WriteDmaExt = 0x35,
    WriteDmaFuaExt = 0x3D,
    ReadVerify = 0x40,
    ReadVerifyExt = 0x42,
    FlushCache = 0xE7,
    FlushCacheExt = 0xEA,
    SetFeatures = 0xEF,
    StandbyImmediate = 0xE0,
    CheckPowerMode = 0xE5,
    /// Any code that stands in no line above: every drive aborts it.
    Unlisted = 0x00,
}

/// What SET FEATURES is asked for; other commands do not look at it.
#[derive(Clone, Copy, PartialEq, Eq, Debug)]
pub enum Feature {
    Absent = 0x00,
    EnableWriteCache = 0x02,
    DisableWriteCache = 0x82,
    /// Any feature that stands in no line above.
    Unlisted = 0xFF,
}

/// One command to a drive. A count of 0 stands for 256 blocks, or 65,536 in a 48-bit command.
#[derive(Clone, Copy, PartialEq, Eq, Debug)]
pub struct TaskFile {
    pub command: AtaCommand,
    pub feature: Feature,
    pub count: u16,
    pub block: u64,
}
