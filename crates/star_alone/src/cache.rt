//! The book of a cache with one loader, which never waits, and the loads that it has refused.

ghost use Rattle.std.specs.Prelude.{◌≡◌, ◌≤◌, All, IfOk, MatchOption, length, true};
ghost use Rattle.star_cache.specs.State.{HasEnded, Loads};
ghost use Rattle.star_cache.specs.Tells.{IsCyclic, Tells};
ghost use Rattle.star_outcome.specs.Fits.{IsAsked};
ghost use Rattle.star_outcome.specs.Refusals.{AreRefusals, IsRefusal};
ghost use Rattle.star_outcome.specs.Views.{IsTold};
ghost use Rattle.star_plan.specs.Plan.{loaded};
ghost use Rattle.star_plan.specs.Results.{IsGood};

use star_cache::{Book, BookError, Reply};
use star_outcome::run_id::RunId;
use star_outcome::told::Told;
use star_outcome::trace::CyclicLoad;
use std::alloc::{AllocError, Global};
use std::marker::Model;

/// A book with one loader, and the loads that it has refused. It is seen as the book.
#[derive(Drop)]
pub(crate) struct Cache<J: RunId> {
    book: Book<Told<J>>,
    refused: Vec<CyclicLoad>,
}

impl<J: RunId> Model for Cache<J> {
    ghost use Rattle.std.specs.Prelude.{◌≡◌, length};
    ghost use Rattle.star_cache.specs.State.{BookState};
    ghost use Rattle.star_outcome.specs.Refusals.{AreRefusals};
    ghost use Rattle.star_outcome.specs.Views.{ToldView};

    ghost Value = { BookState ToldView };

    ghost view = { λ c. c.book };

    ghost invariant = { λ c. (length c.book.loaders ≡ 1) × AreRefusals J.plan c.refused.items };
}

impl<J: RunId> Cache<J> {
    /// A book of `count` files. None has been asked for yet.
    pub(crate) fn new(alloc: Global, files: usize) -> Result<Cache<J>, AllocError>
        requires files { files ≡ length J.files }
        requires few { files ≤ 10000 }
    {
        let book = Book::new(alloc, files, 1)?;
        let refused = Vec::new(alloc);
        Ok(Cache { book, refused })
    }

    /// Asks for a file: for the file that was begun last and has not ended, which loads it, or for a reached file.
    pub(crate) fn ask(
        &mut self,
        parent: Option<usize>,
        target: usize,
    ) -> Result<Reply<Told<J>>, BookError>
        requires load { MatchOption parent (IsAsked J.files J.plan target) (λ p. Loads (loaded J.plan) p target) }
        ensures tells { IfOk result (Tells (IsTold J.files J.plan) (IsGood J.plan)
            (IsCyclic (loaded J.plan) parent target) ⊥ target) }
    {
        self.book.ask(0, parent, target)
    }

    /// The file that was begun last, of those that have not ended, has ended so.
    pub(crate) fn finish(&mut self, n: usize, told: Told<J>) -> Result<(), BookError>
        requires right { IsTold J.files J.plan n told }
    {
        match self.book.finish(0, n, told) {
            Ok(()) => Ok(()),
            Err((error, _told)) => Err(error),
        }
    }

    /// One refused load more.
    pub(crate) fn note_cycle(&mut self, load: CyclicLoad) -> Result<(), AllocError>
        requires { IsRefusal J.plan load }
        ensures { self.new ≡ self.old }
    {
        self.refused.push(load)?;
        Ok(())
    }

    /// Whether each of these files has ended.
    pub(crate) fn have_ended(&self, files: &[usize]) -> bool
        ensures { result ≡ true → All (HasEnded self.now) files.now }
    {
        self.book.have_ended(files)
    }

    /// The book, and the loads that were refused.
    pub(crate) fn into_parts(self) -> (Book<Told<J>>, Vec<CyclicLoad>)
        ensures book { result.0 ≡ self }
        ensures refused { AreRefusals J.plan result.1.items }
    {
        let Cache { book, refused } = self;
        (book, refused)
    }
}
