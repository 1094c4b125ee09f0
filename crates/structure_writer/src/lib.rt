// Timestamps, attributes and statistics, stored member after member at a cursor of the lent buffer. The room for all members is tested
// before the first is stored.
#![tactic(auto)]

ghost use Rattle.std.specs.Prelude.{[]};
ghost use Rattle.layout.specs.Kinds.{time_kinds, kinds, attributes as attributes_fields, statistics as statistics_fields};
ghost use Rattle.wire.specs.Values.{time_values, attributes_values, statistics_values};
ghost use Rattle.layout.specs.Writing.{encode_all};
ghost use Rattle.field_writer.specs.Stored.{Put};

use wire::{Attributes, Cursor, Statistics, Timestamp};

// A timestamp: seconds u64, nsec u32. Refuses 7.
pub fn put_timestamp(out: &mut [u8], c: Cursor, time: Timestamp) -> Cursor
    ensures { Put out.old c (encode_all time_kinds (time_values time [])) out.new result }
{
    let start = field_writer::room(c, Timestamp::SIZE, out.len());
    let seconds = field_writer::put_u64(out, start, time.seconds);
    field_writer::put_u32(out, seconds, time.nsec)
}

// Attributes: inode u64, nlink u64, mode u32, uid u32, gid u32, rdev u64, size u64, blocks u64, then the timestamps atime, mtime and ctime.
// Refuses 7.
pub fn put_attributes(out: &mut [u8], c: Cursor, attributes: Attributes) -> Cursor
    ensures { Put out.old c (encode_all (kinds attributes_fields) (attributes_values attributes)) out.new result }
{
    let start = field_writer::room(c, Attributes::SIZE, out.len());
    let inode = field_writer::put_u64(out, start, attributes.inode);
    let nlink = field_writer::put_u64(out, inode, attributes.nlink);
    let mode = field_writer::put_u32(out, nlink, attributes.mode);
    let uid = field_writer::put_u32(out, mode, attributes.uid);
    let gid = field_writer::put_u32(out, uid, attributes.gid);
    let rdev = field_writer::put_u64(out, gid, attributes.rdev);
    let size = field_writer::put_u64(out, rdev, attributes.size);
    let blocks = field_writer::put_u64(out, size, attributes.blocks);
    let atime = put_timestamp(out, blocks, attributes.atime);
    let mtime = put_timestamp(out, atime, attributes.mtime);
    put_timestamp(out, mtime, attributes.ctime)
}

// Statistics: bsize, frsize, blocks, bfree, bavail, files, ffree and namemax, each u64. Refuses 7.
pub fn put_statistics(out: &mut [u8], c: Cursor, statistics: Statistics) -> Cursor
    ensures { Put out.old c (encode_all (kinds statistics_fields) (statistics_values statistics)) out.new result }
{
    let start = field_writer::room(c, Statistics::SIZE, out.len());
    let bsize = field_writer::put_u64(out, start, statistics.bsize);
    let frsize = field_writer::put_u64(out, bsize, statistics.frsize);
    let blocks = field_writer::put_u64(out, frsize, statistics.blocks);
    let bfree = field_writer::put_u64(out, blocks, statistics.bfree);
    let bavail = field_writer::put_u64(out, bfree, statistics.bavail);
    let files = field_writer::put_u64(out, bavail, statistics.files);
    let ffree = field_writer::put_u64(out, files, statistics.ffree);
    field_writer::put_u64(out, ffree, statistics.namemax)
}
