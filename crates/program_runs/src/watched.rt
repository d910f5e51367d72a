// A walk that is reported to an observer of the work.
use search_crew::Observer;
use search_levels::LevelObserver;
use tree_covers::LineObserver;

/// Reports each node of a walk to an observer, with no ticket.
#[derive(Clone, Copy)]
pub(crate) struct Watched<'o, O> {
    pub(crate) observer: &'o O,
}

impl<'o, O: Observer> LineObserver for Watched<'o, O> {
    fn visited(&self) {
        self.observer.turn(0);
    }
}

impl<'o, O: Observer> LevelObserver for Watched<'o, O> {
    fn level(&self, steps: u64) {
        self.observer.level(steps);
    }

    fn visited(&self) {
        self.observer.turn(0);
    }
}
