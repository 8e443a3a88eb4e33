//! A ticker with a board.
ghost use Rattle.std.specs.Prelude.{◌≡◌, None, Some};
ghost use Rattle.std.specs.Option.{option_map};
ghost use Rattle.tsp_io.specs.Boards.{is_there, on_board, views_on};

use crate::board::Board;
use crate::origin::Origin;
use crate::ticker::Ticker;

/// A ticker, and a board on which is written what its ticks mean, or none.
#[derive(Drop)]
pub struct Paged<T, B> {
    ticker: T,
    board: Option<B>,
}

impl<T: Ticker, B: Board> Paged<T, B> {
    /// This ticker with this board, in the place of one that it has itself.
    pub fn new(ticker: T, board: Option<B>) -> Paged<T, B>
        ensures { result ≡ record { ticker = ticker; board = board } }
    {
        Paged { ticker, board }
    }

    /// The board.
    pub fn board(&self) -> Option<&B>
        ensures { option_map (λ board. board.now) result ≡ self.now.board }
    {
        match &self.board {
            Some(board) => Some(board),
            None => None,
        }
    }
}

impl<T: Ticker, B: Board> Ticker for Paged<T, B> {
    ghost readings = { λ s. T.readings s.ticker };

    ghost wall_is = { λ s. T.wall_is s.ticker };

    ghost word_is = { λ s. T.word_is s.ticker };

    ghost left_at_wall = { λ s. T.left_at_wall s.ticker };

    ghost last = { λ s. T.last s.ticker };

    ghost origin_is = { λ s. T.origin_is s.ticker };

    ghost delay_is = { λ s. T.delay_is s.ticker };

    ghost boarded = { λ s. is_there s.board };

    ghost marks = { λ s. on_board B.writes s.board };

    ghost views = { λ s. views_on B.views s.board };

    fn tick(&mut self) -> u64 {
        self.ticker.tick()
    }

    fn wall(&mut self) -> i64 {
        self.ticker.wall()
    }

    fn word(&mut self) -> u64 {
        self.ticker.word()
    }

    fn origin(&self) -> Option<Origin> {
        self.ticker.origin()
    }

    fn moment(&self) -> u64 {
        self.ticker.moment()
    }

    fn has_board(&self) -> bool {
        self.board.is_some()
    }

    fn mark(&mut self, at: u64, octets: &[u8]) {
        if let Some(board) = &mut self.board {
            board.write(at, octets);
        }
    }

    fn view(&mut self, at: u64, buf: &mut [u8]) -> bool {
        match &mut self.board {
            Some(board) => board.read(at, buf),
            None => false,
        }
    }

    fn retune(&mut self, tick: u64, rate: i64) -> Option<Origin> {
        self.ticker.retune(tick, rate)
    }
}
