//! Reading the store of a disk.
ghost use Rattle.std.specs.Prelude.{◌≡◌, ◌≢◌, ◌≤◌, ◌<◌, ◌^◌, Some, Ok, Err, length, Contains, IfOk, IfErr, IsErrOf};
ghost use Rattle.std.specs.List.{AllZip};
ghost use Rattle.facet_disk.specs.declared.name.FileName.{FileName};
ghost use Rattle.facet_disk.specs.Images.{Told};
ghost use Rattle.facet_disk.specs.Calls.{Rose};
ghost use Rattle.facet_model.specs.Stored.{Decodes};
ghost use Rattle.facet_names.specs.Labels.{IsLabelList};
ghost use Rattle.commit_file.specs.Commits.{AreInOrder};
ghost use Rattle.seg_documents.specs.Decoding.{docs_in};
ghost use Rattle.store_opening.specs.declared.fault.OpenFault.TheVariants.{Disk, NoMemory as Memory};
ghost use Rattle.store_opening.specs.Files.{files, greatest_number};
ghost use Rattle.store_opening.specs.Newest.{AreListed, next_after, IsNamedAs};
ghost use Rattle.store_opening.specs.Quiet.{IsRead};
ghost use Rattle.store_opening.specs.Reads.{found, IsTaxonomyOf, IsIndexOf};

use crate::fault::OpenFault;
use crate::index::read_index;
use crate::newest::Newest;
use crate::numbers::next_number;
use crate::reading::list_all;
use crate::taxonomy::read_taxonomy;
use facet_config::FacetsConfig;
use facet_disk::{Disk, FileName};
use seg_file::Segment;
use std::alloc::Global;
use std::hash::RandomState;
use std::sync::Arc;
use taxo_list::Taxonomy;

/// A store that was read from a disk.
#[derive(Drop)]
pub struct Read {
    /// The newest commits, and the names of all files.
    pub newest: Newest,
    /// The labels; the root alone if there is no commit of the taxonomy.
    pub labels: Taxonomy,
    /// The segments of documents, in order; none if there is no commit of the index.
    pub segments: Vec<Arc<Segment>>,
}

/// Reads the store of a disk, and writes nothing.
///
/// It lists each directory. Then it reads the newest commit of the taxonomy and the segments that it names, and the
/// newest commit of the index and the segments that it names. It reads each of these files once and whole, and no other
/// file. `keys` are hash keys of labels and terms; no result depends on them.
///
/// Costs: time and memory of adding all labels, and for each segment those of `seg_decoding::open_stored` and of
/// `seg_file::Segment::without`. The labels, the segments and the names of all files stay in memory.
///
/// Errors: the first fault in the order of reading; `Disk` if a call of the disk failed; out of memory.
pub fn read_store<D: Disk>(
    alloc: Global,
    keys: RandomState,
    disk: &mut D,
    config: &FacetsConfig,
) -> Result<Read, OpenFault>
    // The result is what the files represent, or their first fault, unless it is out of memory or a call of the disk
    // failed.
    ensures ok { IfOk result (λ r. (s : Told) → D.told disk.old ≡ Some s → files config.now s.files ≡ Ok (found r)) }
    ensures err { IfErr result (λ e. e ≢ Memory → e ≢ Disk → (s : Told) → D.told disk.old ≡ Some s
        → files config.now s.files ≡ Err e) }
    ensures read { IsRead D.Disk disk.old disk.new result }
    ensures failed { (s : Told) → D.told disk.old ≡ Some s → IsErrOf result Disk
        → Rose (D.failures disk.old) (D.failures disk.new) }

    // Whatever the disk returns, the segments have their documents, and at most 1,000,000 of these are live.
    ensures decodes { IfOk result (λ r. Decodes r.labels config.now (found r).segments
        (docs_in r.labels (found r).segments)) }
    ensures few { IfOk result (λ r. length (docs_in r.labels (found r).segments) ≤ 1000000) }

    // All files are listed, and the next number is one more than the greatest.
    ensures listed { IfOk result (λ r. (s : Told) → D.told disk.old ≡ Some s
        → AreListed s.files r.newest.listed.items) }
    ensures next { IfOk result (λ r. (s : Told) → D.told disk.old ≡ Some s
        → r.newest.next ≡ next_after (greatest_number s.files)) }
    ensures below { IfOk result (λ r. (n : FileName) → Contains r.newest.listed.items n → n.number < r.newest.next) }
    ensures some { IfOk result (λ r. 1 ≤ r.newest.next) }
    ensures room { IfOk result (λ r. r.newest.next ≤ 2 ^ 63) }

    // Whatever the disk returns, the labels are a label list, and their segments follow one another, each with at least
    // one label.
    ensures list { IfOk result (λ r. IsLabelList r.labels) }
    ensures many { IfOk result (λ r. length r.newest.label_parts.items < length r.labels) }
    ensures order { IfOk result (λ r. AreInOrder (length r.labels) 1 r.newest.label_parts.items) }

    // The numbers and the parts are those of the newest commits, and each part of the index describes its segment. Each
    // segment has a live record.
    ensures taxonomy { IfOk result (λ r. (s : Told) → D.told disk.old ≡ Some s
        → IsTaxonomyOf s.files r.newest r.labels) }
    ensures index { IfOk result (λ r. (s : Told) → D.told disk.old ≡ Some s → IsIndexOf s.files r.newest) }
    ensures named { IfOk result (λ r. AllZip (IsNamedAs config.now r.labels) r.newest.document_parts.items
        (found r).segments) }
{
    let listed = list_all(alloc, disk)?;
    let next = next_number(listed.as_slice())?;
    let taxonomy = read_taxonomy(alloc, keys, disk, &listed)?;
    let index = read_index(alloc, keys, disk, config, &taxonomy.labels, &listed)?;
    let newest = Newest {
        next,
        listed: listed.into_vec(),
        taxonomy: taxonomy.number,
        label_parts: taxonomy.parts,
        index: index.number,
        document_parts: index.parts,
    };
    Ok(Read {
        newest,
        labels: taxonomy.labels,
        segments: index.segments,
    })
}
