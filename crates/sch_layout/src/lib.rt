//! The layout of bodies, on plain trees, and its laws: what a body that is laid out does, the marks on the ways through it
//! and where they stand, and how long its text is.
#![tactic(auto)]

ghost use Rattle.sch_layout.specs.FewCopies.{FewCopiesFit};
ghost use Rattle.sch_layout.specs.Laws.{LaidBodiesDo, LaidMarksStand, WaysArePaths};
ghost use Rattle.sch_layout.specs.OwnMarks.{OwnMarksStand};

/// The law that a body which is laid out does what its tree does, whatever moves bring the arguments of its calls. Like
/// the other laws here it is a call that does nothing.
pub fn laid_bodies_do()
    ensures { LaidBodiesDo }
{}

/// The law that the marks on a way through a body which is laid out are those of a path of its tree.
pub fn ways_are_paths()
    ensures { WaysArePaths }
{}

/// The law that in a layout each write of a slot, and each call, tail call and return, stands directly behind one mark,
/// and each mark directly before an instruction of its kind.
pub fn laid_marks_stand()
    ensures { LaidMarksStand }
{}

/// The law that in each activation which has ended a call of its own follows every save, where each path of the tree has
/// it so, and that a restore comes after a call with only restores between.
pub fn own_marks_stand()
    ensures { OwnMarksStand }
{}

/// The law that the text of a layout is within 72 bytes for each unit of work of its body, where no more variables are saved
/// at the head of a body or of an arm, or restored behind a call, than there are registers to keep.
pub fn few_copies_fit()
    ensures { FewCopiesFit }
{}
