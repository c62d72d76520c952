// The paths of a pool's files, as the HDFS on-disk format lays them out.
ghost use Rattle.std.specs.Prelude.{◌≡◌, ◌+◌, ◌≤◌, ◌++◌, length, decimal, codes};
ghost use Rattle.arrayvec.specs.ArrayString.{array_string_len};
ghost use Rattle.volume_layout.specs.Paths as paths;
ghost use Rattle.volume_layout.specs.Names.{path_text};
ghost use Rattle.volume_layout.specs.BlockFiles.{PathsApart, FilesAside};
ghost use Rattle.volume_layout.specs.Foreign.{ElsewhereIsForeign, OtherNamesAreForeign, StraysAreForeign};

use crate::ids::{BlockId, Stamp};
use crate::place::place_of;
use arrayvec::ArrayString;
use itoa::Buffer;

/// The room of a path's text, in bytes. The longest path has 86.
const ROOM: usize = 96;

/// The directory of the files that are being written ("replica being written").
pub const RBW_DIR: &str = "current/rbw";

/// The directory of the files that moves make, and of cursors that are being written.
pub const TMP_DIR: &str = "tmp";

/// The text of a path, which takes no memory: at most 96 bytes of ASCII, relative to the pool's directory on its volume,
/// with `/` between its parts.
#[derive(Clone, Copy)]
pub struct PathText {
    text: ArrayString<ROOM>,
}

impl PathText {
    /// The text.
    pub fn as_str(&self) -> &str
        ensures { result.now ≡ path_text self.now }
    {
        self.text.as_str()
    }
}

/// Appends a number in decimal.
fn push_number(text: &mut ArrayString<ROOM>, n: u64)
    requires { array_string_len text.old + length (decimal n) ≤ 96 }
    ensures number { text.new.bytes ≡ text.old.bytes ++ decimal n }
    ensures len { array_string_len text.new ≡ array_string_len text.old + length (decimal n) }
{
    let mut buffer = Buffer::new();
    text.push_str(buffer.format(n));
}

/// Appends the name of a block file.
#[tactic(auto, using(crate::proofs::Lengths::length_decimal_id), unfolding(crate::specs::Paths::block_name))]
fn push_block_name(text: &mut ArrayString<ROOM>, id: BlockId)
    requires { array_string_len text.old ≤ 73 }
    ensures name { text.new.bytes ≡ text.old.bytes ++ paths.block_name id }
    ensures len { array_string_len text.new ≤ array_string_len text.old + 23 }
{
    text.push_str("blk_");
    push_number(text, id.get());
}

/// Appends the name of a meta file.
#[tactic(auto, using(crate::proofs::Lengths::length_decimal_id), unfolding(crate::specs::Paths::meta_name))]
fn push_meta_name(text: &mut ArrayString<ROOM>, id: BlockId, stamp: Stamp)
    requires { array_string_len text.old ≤ 48 }
    ensures name { text.new.bytes ≡ text.old.bytes ++ paths.meta_name id stamp }
    ensures len { array_string_len text.new ≤ array_string_len text.old + 48 }
{
    push_block_name(text, id);
    text.push_str("_");
    push_number(text, stamp.get());
    text.push_str(".meta");
}

/// Appends the path of a directory of finalised files.
#[tactic(auto, using(crate::proofs::Lengths::length_decimal_byte), unfolding(crate::specs::Paths::dir_path))]
fn push_dir(text: &mut ArrayString<ROOM>, d1: u8, d2: u8)
    requires { array_string_len text.old ≡ 0 }
    ensures path { text.new.bytes ≡ text.old.bytes ++ paths.dir_path d1 d2 }
    ensures len { array_string_len text.new ≤ 37 }
{
    text.push_str("current/finalized/subdir");
    push_number(text, u64::from(d1));
    text.push_str("/subdir");
    push_number(text, u64::from(d2));
}

/// Appends the block's own directory of finalised files, and a slash.
#[tactic(auto, unfolding(crate::specs::Paths::own_dir))]
fn push_own_dir(text: &mut ArrayString<ROOM>, id: BlockId)
    requires { array_string_len text.old ≡ 0 }
    ensures path { text.new.bytes ≡ text.old.bytes ++ paths.own_dir id ++ codes "/" }
    ensures len { array_string_len text.new ≤ 38 }
{
    let place = place_of(id);
    push_dir(text, place.d1, place.d2);
    text.push_str("/");
}

/// The directory of finalised files with these two numbers, `current/finalized/subdirA/subdirB`. Blocks stand in those
/// of numbers 0 to 31.
pub fn dir_path(d1: u8, d2: u8) -> PathText
    ensures { path_text result ≡ paths.dir_path d1 d2 }
{
    let mut text = ArrayString::new();
    push_dir(&mut text, d1, d2);
    PathText { text }
}

/// The finalised block file, `blk_ID` in the block's own directory.
#[tactic(auto, unfolding(crate::specs::Paths::block_path))]
pub fn block_path(id: BlockId) -> PathText
    ensures { path_text result ≡ paths.block_path id }
{
    let mut text = ArrayString::new();
    push_own_dir(&mut text, id);
    push_block_name(&mut text, id);
    PathText { text }
}

/// The finalised meta file of a stamp, `blk_ID_STAMP.meta` in the block's own directory.
#[tactic(auto, unfolding(crate::specs::Paths::meta_path))]
pub fn meta_path(id: BlockId, stamp: Stamp) -> PathText
    ensures { path_text result ≡ paths.meta_path id stamp }
{
    let mut text = ArrayString::new();
    push_own_dir(&mut text, id);
    push_meta_name(&mut text, id, stamp);
    PathText { text }
}

/// The block file that is being written, `blk_ID` in `current/rbw`.
#[tactic(auto, unfolding(crate::specs::Paths::rbw_block))]
pub fn rbw_block(id: BlockId) -> PathText
    ensures { path_text result ≡ paths.rbw_block id }
{
    let mut text = ArrayString::new();
    text.push_str(RBW_DIR);
    text.push_str("/");
    push_block_name(&mut text, id);
    PathText { text }
}

/// The meta file that is being written, `blk_ID_STAMP.meta` in `current/rbw`.
#[tactic(auto, unfolding(crate::specs::Paths::rbw_meta))]
pub fn rbw_meta(id: BlockId, stamp: Stamp) -> PathText
    ensures { path_text result ≡ paths.rbw_meta id stamp }
{
    let mut text = ArrayString::new();
    text.push_str(RBW_DIR);
    text.push_str("/");
    push_meta_name(&mut text, id, stamp);
    PathText { text }
}

/// The temporary block file of a move, `blk_ID` in `tmp`.
#[tactic(auto, unfolding(crate::specs::Paths::tmp_block))]
pub fn tmp_block(id: BlockId) -> PathText
    ensures { path_text result ≡ paths.tmp_block id }
{
    let mut text = ArrayString::new();
    text.push_str(TMP_DIR);
    text.push_str("/");
    push_block_name(&mut text, id);
    PathText { text }
}

/// The temporary meta file of a move, `blk_ID_STAMP.meta` in `tmp`.
#[tactic(auto, unfolding(crate::specs::Paths::tmp_meta))]
pub fn tmp_meta(id: BlockId, stamp: Stamp) -> PathText
    ensures { path_text result ≡ paths.tmp_meta id stamp }
{
    let mut text = ArrayString::new();
    text.push_str(TMP_DIR);
    text.push_str("/");
    push_meta_name(&mut text, id, stamp);
    PathText { text }
}

/// Different files of blocks have different paths.
pub fn paths_are_apart()
    ensures { PathsApart }
{}

/// The files of writers and of moves stand under `current/rbw` and `tmp`, and finalised files don't.
pub fn unfinished_files_are_aside()
    ensures { FilesAside }
{}

/// Foreign is what stands where no files of blocks are, what has another name there than a block's files have, and a block's
/// file in another directory of finalised files than its own.
pub fn other_files_are_foreign()
    ensures elsewhere { ElsewhereIsForeign }
    ensures names { OtherNamesAreForeign }
    ensures strays { StraysAreForeign }
{}
