ghost use Rattle.facet_serving.specs.Acknowledged.{AcknowledgedStays, AcknowledgedSurvives, CommitsAreAcknowledged};
ghost use Rattle.facet_serving.specs.Acknowledged.{HaveFewOrders};
ghost use Rattle.facet_serving.specs.Added.{AddsArePlaced, EachAddStands, EachIsAddedOnce};
ghost use Rattle.facet_serving.specs.Alike.{EqualFilesOpenTheSame, EqualStoresReplyAlike, EqualStoresWriteTheSame};
ghost use Rattle.facet_serving.specs.Laws.{AcknowledgedIsReopened, LeavesStore};

use facet_disk::Disk;

/// States that the next invocation opens what this one acknowledged, and that the files that it left represent a store.
/// The call does nothing.
pub fn runs_go_on<D: Disk>(disk: &D)
    ensures reopened { AcknowledgedIsReopened D.Disk }
    ensures stands { LeavesStore D.Disk }
{
    let _ = disk;
}

/// States that each operation after the opened ones belongs to one change, which returned its place; and that the
/// operation of each add that returned a place is there, under its session. An add whose document is accepted, whose
/// labels fit and for which there is room returns a place, or is out of memory. The call does nothing.
pub fn adds_stand<D: Disk>(disk: &D)
    ensures once { EachIsAddedOnce D.Disk }
    ensures stands { EachAddStands D.Disk }
    ensures placed { AddsArePlaced D.Disk }
{
    let _ = disk;
}

/// States that whatever a crash leaves at the end has what each acknowledged commit has acknowledged: the operations of
/// the changes before it, and the labels that its session had been shown. So has whatever a crash leaves at any moment
/// since that commit. If the disk's count of faults does not rise and file numbers are left, a commit is acknowledged
/// or is out of memory. This holds for scripts that are read and for generated ones. The call does nothing.
pub fn commits_stay<D: Disk>(disk: &D)
    ensures stays { AcknowledgedStays D.Disk }
    ensures survives { AcknowledgedSurvives D.Disk }
    ensures acknowledged { CommitsAreAcknowledged D.Disk }
    ensures few { HaveFewOrders }
{
    let _ = disk;
}

/// States that one session gets the same replies over stores that represent the same labels and documents. They are
/// equal byte for byte, if no reply is about the store or out of memory. The call does nothing.
pub fn equal_stores_reply_alike<D: Disk>(disk: &D)
    ensures opened { EqualFilesOpenTheSame D.Disk }
    ensures alike { EqualStoresReplyAlike D.Disk }
    ensures same { EqualStoresWriteTheSame D.Disk }
{
    let _ = disk;
}
