//! The base of an append: it is verified, and copied into the writer.
ghost use Rattle.std.specs.Prelude.{◌≡◌, ◌≢◌, ◌+◌, ◌-◌, ◌<◌, ◌≤◌, ◌⊎◌, [], List, ℕ, length, IfOk, IfErr, OnOk, IsErrOf, MatchResult, Option, Some, None, IsTrue, is_some};
ghost use Rattle.disk_model.specs.Causes.{Rose};
ghost use Rattle.disk_model.specs.Worlds.{World};
ghost use Rattle.meta_file.specs.Checksums.{Matches};
ghost use Rattle.meta_file.specs.Verdicts.{verdict_of};
ghost use Rattle.meta_file.specs.declared.verdict.Verdict.TheVariants.{Whole};
ghost use Rattle.pair_draft.specs.Files.{file_bytes, file_faults, SameFile, HasFailed};
ghost use Rattle.pair_draft.specs.Checking.{IsOnLength};
ghost use Rattle.pair_draft.specs.Writers.{writer_of, HasPushed, Keeps};
ghost use Rattle.pair_draft.specs.Bases.{BaseTells, HasBase};

use crate::files::read_full;
use crate::verification::verify;
use crate::writer::Writing;
use crate::writing::PushFault;
use disk_model::PoolDisks;
use meta_file::Verdict;

/// A writer that is to go on from a base, whose bytes aren't in it yet.
#[derive(Drop)]
pub struct Basing<D: PoolDisks> {
    /// Nothing was pushed to it yet. Its reserved bytes are those of the base and those that are appended.
    pub writer: Writing<D>,
    /// How many bytes the base has.
    pub base_len: u64,
    /// The base's block file, unless it is absent.
    pub block: Option<D::Reader>,
    /// The base's meta file, unless it is absent.
    pub meta: Option<D::Reader>,
}

/// Why a base was not copied.
#[derive(Clone, Copy, Debug, PartialEq, Eq)]
pub enum BaseFault {
    /// A reader of the base or the draft of the block failed. The writer can only be given up.
    Failed,
    /// The base isn't whole: what its meta file says of it.
    Bad(Verdict),
    /// There was no memory.
    Memory,
}

/// Copies the next piece of a base to a writer, and answers how many bytes it has.
fn copy_piece<D: PoolDisks>(
    writer: &mut Writing<D>,
    block: &mut Option<D::Reader>,
    at: u64,
    len: u64,
    buf: &mut [u8],
) -> Result<u64, BaseFault>
    requires buffer { 0 < length buf.old }
    requires whole { IsTrue (is_some writer.old.meta) }
    requires left { at < len }
    requires fits { len - at ≤ writer.old.reserved - writer.old.len }
    ensures some { IfOk result (λ count. 0 < count) }
    ensures within { IfOk result (λ count. at + count ≤ len) }
    ensures len { IfOk result (λ count. writer.new.len ≡ writer.old.len + count) }
    ensures base { (told : Option (List World)) →
        HasBase told (file_bytes D.Reader.bytes block.old) at (writer_of D.Draft.place D.Draft.bytes writer.old) →
        IfOk result (λ count. HasBase told (file_bytes D.Reader.bytes block.old) (at + count) (writer_of D.Draft.place D.Draft.bytes writer.new)) }
    ensures goes_on { OnOk result (writer.new.meta ≡ writer.old.meta) }
    ensures keeps { Keeps (writer_of D.Draft.place D.Draft.bytes writer.old) (writer_of D.Draft.place D.Draft.bytes writer.new) }
    ensures same { SameFile D.Reader.number D.Reader.bytes block.old block.new }
    ensures draft_later { D.Draft.faults writer.old.block ≤ D.Draft.faults writer.new.block }
    ensures block_later { file_faults D.Reader.faults block.old ≤ file_faults D.Reader.faults block.new }
    ensures failed { IsErrOf result BaseFault.Failed → Rose (D.Draft.faults writer.old.block) (D.Draft.faults writer.new.block)
        ⊎ Rose (file_faults D.Reader.faults block.old) (file_faults D.Reader.faults block.new) }
    ensures not_whole { (verdict : _) → IsErrOf result (BaseFault.Bad verdict) → verdict ≢ Whole }
    ensures on_length { (verdict : _) → IsErrOf result (BaseFault.Bad verdict) → IsOnLength len verdict }
    ensures ended { (all : List ℕ) → file_bytes D.Reader.bytes block.old ≡ Some all →
        (verdict : _) → IsErrOf result (BaseFault.Bad verdict) → length all < len }
{
    let want = buf.len().min((len - at) as usize);
    let Ok(have) = read_full(block, at, &mut buf[..want]) else {
        return Err(BaseFault::Failed);
    };
    if have < want {
        return Err(BaseFault::Bad(Verdict::Short {
            want: len,
            have: at + have as u64,
        }));
    }
    match writer.push(&buf[..have]) {
        Ok(()) => Ok(have as u64),
        Err(PushFault::Failed) => Err(BaseFault::Failed),
        Err(PushFault::Over { .. } | PushFault::Memory) => Err(BaseFault::Memory),
    }
}

/// Copies the first bytes of a base to a writer, so many.
fn copy_base<D: PoolDisks>(
    writer: &mut Writing<D>,
    block: &mut Option<D::Reader>,
    len: u64,
    buf: &mut [u8],
) -> Result<(), BaseFault>
    requires buffer { 0 < length buf.old }
    requires whole { IsTrue (is_some writer.old.meta) }
    requires fits { len ≤ writer.old.reserved - writer.old.len }
    ensures len { OnOk result (writer.new.len ≡ writer.old.len + len) }
    ensures base { (told : Option (List World)) → HasPushed told (writer_of D.Draft.place D.Draft.bytes writer.old) [] →
        OnOk result (HasBase told (file_bytes D.Reader.bytes block.old) len (writer_of D.Draft.place D.Draft.bytes writer.new)) }
    ensures goes_on { OnOk result (writer.new.meta ≡ writer.old.meta) }
    ensures keeps { Keeps (writer_of D.Draft.place D.Draft.bytes writer.old) (writer_of D.Draft.place D.Draft.bytes writer.new) }
    ensures same { SameFile D.Reader.number D.Reader.bytes block.old block.new }
    ensures failed { IsErrOf result BaseFault.Failed → Rose (D.Draft.faults writer.old.block) (D.Draft.faults writer.new.block)
        ⊎ Rose (file_faults D.Reader.faults block.old) (file_faults D.Reader.faults block.new) }
    ensures not_whole { (verdict : _) → IsErrOf result (BaseFault.Bad verdict) → verdict ≢ Whole }
    ensures on_length { (verdict : _) → IsErrOf result (BaseFault.Bad verdict) → IsOnLength len verdict }
    ensures ended { (all : List ℕ) → file_bytes D.Reader.bytes block.old ≡ Some all →
        (verdict : _) → IsErrOf result (BaseFault.Bad verdict) → length all < len }
{
    let mut done = 0;
    'pieces: while done < len {
        done += copy_piece(writer, block, done, len, buf)?;
    }
    Ok(())
}

impl<D: PoolDisks> Basing<D> {
    /// Verifies the base, and then copies it into the writer through `buf`, of which a length of many chunks serves speed.
    /// Its checksums are gathered anew. An absent file is read as one without bytes. A base that ends while it is copied is
    /// short. A writer whose base is copied in part isn't whole any more.
    pub fn fill(self, buf: &mut [u8]) -> Result<Writing<D>, (BaseFault, Writing<D>)>
        requires buffer { 0 < length buf.old }
        requires whole { IsTrue (is_some self.writer.meta) }
        requires fits { self.base_len ≤ self.writer.reserved - self.writer.len }
        ensures base { (told : Option (List World)) → HasPushed told (writer_of D.Draft.place D.Draft.bytes self.writer) [] →
            IfOk result (λ writer. HasBase told (file_bytes D.Reader.bytes self.block) self.base_len (writer_of D.Draft.place D.Draft.bytes writer)) }
        ensures len { IfOk result (λ writer. writer.len ≡ self.writer.len + self.base_len) }
        ensures goes_on { IfOk result (λ writer. writer.meta ≡ self.writer.meta) }
        ensures keeps { MatchResult result (λ writer. Keeps (writer_of D.Draft.place D.Draft.bytes self.writer) (writer_of D.Draft.place D.Draft.bytes writer))
            (λ given. Keeps (writer_of D.Draft.place D.Draft.bytes self.writer) (writer_of D.Draft.place D.Draft.bytes given.1)) }
        ensures verified { (all sums : List ℕ) → BaseTells D.Reader.bytes self all sums → OnOk result (verdict_of sums all self.base_len ≡ Whole) }
        ensures bad { (all sums : List ℕ) → BaseTells D.Reader.bytes self all sums → (verdict : _) →
            IfErr result (λ given. given.0 ≡ BaseFault.Bad verdict → verdict ≡ verdict_of sums all self.base_len) }
        ensures not_whole { (verdict : _) → IfErr result (λ given. given.0 ≡ BaseFault.Bad verdict → verdict ≢ Whole) }
        ensures on_length { (verdict : _) → IfErr result (λ given. given.0 ≡ BaseFault.Bad verdict → IsOnLength self.base_len verdict) }
        ensures matching { (all sums : List ℕ) → BaseTells D.Reader.bytes self all sums → Matches sums all → length all ≡ self.base_len →
            (verdict : _) → IfErr result (λ given. given.0 ≢ BaseFault.Bad verdict) }
        ensures same_bad { (all sums : List ℕ) → BaseTells D.Reader.bytes self all sums → (verdict : _) → IfErr result (λ given.
            given.0 ≡ BaseFault.Bad verdict → writer_of D.Draft.place D.Draft.bytes given.1 ≡ writer_of D.Draft.place D.Draft.bytes self.writer) }
        ensures after { IfErr result (λ given. (given.1.meta ≡ None)
            ⊎ (writer_of D.Draft.place D.Draft.bytes given.1 ≡ writer_of D.Draft.place D.Draft.bytes self.writer)) }
        ensures given_up { IfErr result (λ given. given.0 ≡ BaseFault.Failed → given.1.meta ≡ None) }
        ensures failed { IfErr result (λ given. given.0 ≡ BaseFault.Failed → Rose (D.Draft.faults self.writer.block) (D.Draft.faults given.1.block)
            ⊎ (HasFailed D.Reader.number D.Reader.faults self.block ⊎ HasFailed D.Reader.number D.Reader.faults self.meta)) }
    {
        let Basing {
            mut writer,
            base_len,
            mut block,
            mut meta,
        } = self;
        let Ok(verdict) = verify(&mut block, &mut meta, base_len, buf) else {
            writer.meta = None;
            return Err((BaseFault::Failed, writer));
        };
        if verdict != Verdict::Whole {
            return Err((BaseFault::Bad(verdict), writer));
        }
        match copy_base(&mut writer, &mut block, base_len, buf) {
            Ok(()) => Ok(writer),
            Err(fault) => {
                writer.meta = None;
                Err((fault, writer))
            }
        }
    }
}
