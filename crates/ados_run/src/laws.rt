//! Laws about the definitions. Each is the contract of a function that does nothing.
ghost use Rattle.ados_run.specs.Laws.{DeadHandlersRest, EachSideIsAHistory, EachSideIsLawful, HistoriesFollowTrees};
ghost use Rattle.ados_run.specs.Laws.{LinesOverTreesAreOneRun, ListsFollowTrees, TreesReadBack};
ghost use Rattle.ados_run.specs.Replays.{SameAnswerSameHandler, SameAnswersSameHandlers, SameOutcomesSameBytes};
ghost use Rattle.ados_run.specs.Replays.{SameStepsSameBytes};

/// A history of a handler's port is also one of its image and of the image's tree side by side.
pub fn histories_follow_trees()
    ensures { HistoriesFollowTrees }
{}

/// The lists gathered from all ends of a handler's port are one history of the tree of its opening image.
pub fn lists_follow_trees()
    ensures { ListsFollowTrees }
{}

/// A history of image and tree side by side is a history of the tree alone, and one of the handler alone.
pub fn each_side_is_a_history()
    ensures { EachSideIsAHistory }
{}

/// The same for the lists of a running port.
pub fn each_side_is_lawful()
    ensures { EachSideIsLawful }
{}

/// A dead handler refuses each packet and changes nothing. Its port accepts none, by `ados_port::closed_after_death`.
pub fn dead_handlers_rest()
    ensures { DeadHandlersRest }
{}

/// An image that represents a tree is refused only if memory runs out.
pub fn trees_read_back()
    ensures { TreesReadBack }
{}

/// The output of a script at the port of a tree, line by line, is that of one run, in one history of that port.
pub fn lines_over_trees_are_one_run()
    ensures { LinesOverTreesAreOneRun }
{}

/// A packet, its time stamp and its answer determine the handler after it, and so each byte of its image.
pub fn same_answer_same_handler()
    ensures { SameAnswerSameHandler }
{}

/// The served packets with their answers determine each handler of a run. So a log of packets can be replayed.
pub fn same_answers_same_handlers()
    ensures { SameAnswersSameHandlers }
{}

/// At a port, the steps, their outcomes and the answers determine the closing image, byte for byte.
pub fn same_steps_same_bytes()
    ensures { SameStepsSameBytes }
{}

/// At an opened port whose replies were all taken, the steps and their outcomes determine the closing image, byte for
/// byte.
pub fn same_outcomes_same_bytes()
    ensures { SameOutcomesSameBytes }
{}
