//! The pages of one column of a group, one at a time.
ghost use Rattle.std.specs.Prelude.{◌≡◌, ◌<◌, ◌≤◌, ℕ, Some, All, option_map, IfSome, IfOk, IfErr};
ghost use Rattle.columns_base.specs.declared.error.Error.{Error as Fault};
ghost use Rattle.pq_tree.specs.Tree.{Leaf};
ghost use Rattle.pq_tree.specs.Views.{statistics_view};
ghost use Rattle.pq_tree.specs.declared.version.Version.{Version};
ghost use Rattle.pq_files.specs.Layout.{OutChunk};
ghost use Rattle.pq_files.specs.Room.{max_count};
ghost use Rattle.pq_files.specs.Written.{pairs_in, statistics_of};
ghost use Rattle.write_file.specs.Pages.{GivesNext, IsDictionaryOf, encoding_view, entry_count};

use columns_base::Result;
use pq_pages::{DataPage, DictPage};
use pq_tree::{Encoding, Statistics};

/// Gives the pages of a column of a group, each when it is asked for: the dictionary page first, where there is one, and then the data pages.
pub trait ChunkPages {
    /// The dictionary page of this chunk of a leaf was given, where it has one, and its data pages in this version are still to come.
    ghost gives: { Self → Version → Leaf → OutChunk → Type 0 };

    /// It is to give the pages of this chunk of a leaf, and gave none of them yet, neither a dictionary page nor a data page.
    ghost begins: { Self → Version → Leaf → OutChunk → Type 0 };

    /// So many steps are left at most.
    ghost left: { Self → ℕ };

    /// Why a page may be refused.
    ghost refuses: { Self → Fault → Type 0 };

    /// The dictionary page, where the chunk has one. It is asked for once, before the data pages.
    fn dictionary_page(&mut self) -> Result<Option<DictPage>>
        ensures page { IfOk result (λ d. (version : Version) (l : Leaf) (c : OutChunk) → begins self.old version l c
            → IsDictionaryOf l c.entries d × gives self.new version l c) }
        ensures fewer { left self.new ≤ left self.old }
        ensures refused { IfErr result (refuses self.old) }
        ensures later { (e : Fault) → refuses self.new e → refuses self.old e };

    /// The next data page; none at the end.
    fn next_page(&mut self) -> Option<Result<DataPage>>
        ensures page { (version : Version) (l : Leaf) (c : OutChunk) → gives self.old version l c
            → GivesNext gives version l c result self.new }
        ensures fewer { IfSome result (λ _. left self.new < left self.old) }
        ensures refused { IfSome result (λ r. IfErr r (refuses self.old)) }
        ensures later { (e : Fault) → refuses self.new e → refuses self.old e };

    /// The encoding of the values in all its data pages.
    fn encoding(&self) -> Encoding
        ensures { (version : Version) (l : Leaf) (c : OutChunk) → gives self.now version l c
            → All (λ o. encoding_view result ≡ Some o.encoding) c.pages };

    /// The statistics of the whole chunk, where they are written. Of a chunk with more pairs or entries than a file counts nothing is known.
    fn statistics(&self) -> &Option<Statistics>
        ensures { (version : Version) (l : Leaf) (c : OutChunk) → begins self.now version l c → pairs_in c ≤ max_count
            → entry_count c.entries ≤ max_count → option_map statistics_view result.now
            ≡ option_map statistics_of c.statistics };
}
