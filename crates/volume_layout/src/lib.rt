//! Block ids, generation stamps, and the names and paths of a pool's files, as the HDFS on-disk format lays them out on
//! a volume.
#![tactic(auto)]

mod block_file;
mod ids;
mod names;
mod paths;
mod place;

pub use block_file::BlockFile;
pub use ids::{BlockId, Stamp};
pub use names::{Named, names_have_one_reading, read_name};
pub use paths::{
    PathText, RBW_DIR, TMP_DIR, block_path, dir_path, meta_path, other_files_are_foreign,
    paths_are_apart, rbw_block, rbw_meta, tmp_block, tmp_meta, unfinished_files_are_aside,
};
pub use place::{Place, START, place_of, places_are_apart, start_is_first};

#[cfg(test)]
mod tests {
    use super::*;
    use std::test::Fail;

    /// What a name names, as numbers: a block's id, or a meta's id and stamp.
    fn numbers(name: &str) -> (u64, u64) {
        match read_name(name) {
            Named::Block(id) => (id.get(), 0),
            Named::Meta(id, stamp) => (id.get(), stamp.get()),
            Named::Other => (0, 0),
        }
    }

    #[test]
    fn paths_have_their_texts(rt: HostRuntime) -> Result<(), Fail> {
        let (Some(small), Some(large)) = (BlockId::new(5), BlockId::new(1_073_816_389)) else {
            assert!(rt; false);
            return Ok(());
        };
        let (Some(stamp), Some(last)) = (Stamp::new(1001), Stamp::new((1 << 63) - 1)) else {
            assert!(rt; false);
            return Ok(());
        };
        assert_eq!(rt;
            block_path(small).as_str(),
            "current/finalized/subdir0/subdir0/blk_5"
        );
        assert_eq!(rt;
            block_path(large).as_str(),
            "current/finalized/subdir1/subdir3/blk_1073816389"
        );
        assert_eq!(rt;
            meta_path(small, stamp).as_str(),
            "current/finalized/subdir0/subdir0/blk_5_1001.meta"
        );
        assert_eq!(rt; rbw_block(small).as_str(), "current/rbw/blk_5");
        assert_eq!(rt;
            rbw_meta(small, stamp).as_str(),
            "current/rbw/blk_5_1001.meta"
        );
        assert_eq!(rt; tmp_block(small).as_str(), "tmp/blk_5");
        assert_eq!(rt;
            tmp_meta(small, last).as_str(),
            "tmp/blk_5_9223372036854775807.meta"
        );
        assert_eq!(rt;
            dir_path(31, 7).as_str(),
            "current/finalized/subdir31/subdir7"
        );
        assert_eq!(rt;
            BlockFile::WritingMeta(stamp).path(small).as_str(),
            "current/rbw/blk_5_1001.meta"
        );
        assert_eq!(rt; START.is_before(place_of(small)), true);
        assert_eq!(rt; place_of(large).is_before(place_of(small)), false);
        assert_eq!(rt;
            place_of(large),
            Place {
                d1: 1,
                d2: 3,
                id: 1_073_816_389
            }
        );
        Ok(())
    }

    #[test]
    fn names_are_read(rt: HostRuntime) -> Result<(), Fail> {
        assert_eq!(rt; numbers("blk_7"), (7, 0));
        assert_eq!(rt;
            numbers("blk_9223372036854775807"),
            (9_223_372_036_854_775_807, 0)
        );
        assert_eq!(rt; numbers("blk_5_1001.meta"), (5, 1001));
        for name in [
            "blk_007",
            "blk_0",
            "blk_-5",
            "blk_+5",
            "blk_9223372036854775808",
            "blk_18446744073709551621",
            "blk_5_.meta",
            "blk_5_01001.meta",
            "blk_05_1001.meta",
            "blk_5_1001_2.meta",
            "blk_5.meta",
            "blk__1001.meta",
            "blk_5_1001",
            "blk_",
            "block_5",
            "scanner.cursor.tmp",
            "",
        ] {
            assert_eq!(rt; numbers(name), (0, 0));
        }
        Ok(())
    }
}
