ghost use Rattle.facet_core.specs.Laws.{EveryRunIsValid, CrashesKeepAcknowledged, PublishedLabelsStand};
ghost use Rattle.facet_core.specs.Laws.{PublicationsNeverFall};

/// States that every list of events leads from a valid core to a valid core. The events may abandon a refresh between
/// its two numbers, fail a disk call, and crash between any two disk calls.
pub fn every_run_is_valid()
    ensures { EveryRunIsValid }
{}

/// States that every crash keeps a prefix of the labels and a prefix of the operations, which contain everything that
/// an acknowledged commit had.
pub fn crashes_keep_acknowledged()
    ensures { CrashesKeepAcknowledged }
{}

/// States that no published pair has a document with a label outside its list.
pub fn published_labels_stand()
    ensures { PublishedLabelsStand }
{}

/// States that the numbers of publications never fall.
pub fn publications_never_fall()
    ensures { PublicationsNeverFall }
{}
