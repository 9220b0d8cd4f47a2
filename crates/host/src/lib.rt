//! What a host brings to the bay: the CDBs of commands, and the images of new disks.

#![tactic(auto)]

mod build;
mod image;

pub use build::{read_capacity_cdb, read10_cdb, test_unit_ready_cdb, write10_cdb};
pub use image::{caching_image, plain_image};
