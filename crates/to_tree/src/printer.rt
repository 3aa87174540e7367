// The printer of the tree: a node's line, and below it the nodes that its links lead to.
ghost use Rattle.to_tree.specs.Ready.{Ready};

use crate::line::{Edge, put_node_line};
use crate::search::next_child;
use blocks::error::MdfError;
use fmt::Page;
use tables::{BLOCK_ROW_WORDS, BlockInfo, PAIR_WORDS, TREE_MARK, first_rows};

// How deep a line may be.
pub const MAX_LEVELS: usize = 4096;

// A tree that is being printed. The recording and the links are read only; of the n rows of the block table the tree marks change.
// A bar says of a node above whether it was the last of its siblings. The page is lent with lifetimes of its own: of a page held
// here the check would not know how its output ends.
#[derive(Drop)]
pub struct Printer<'a, 'p, 'o> {
    pub file: &'a [u8],
    pub links: &'a [[u64; PAIR_WORDS]],
    pub n: usize,
    pub blocks: &'a mut [u64],
    // as many as a node is deep are in use: a stack would be pushed and popped around each call for that
    pub bars: [bool; MAX_LEVELS],
    pub page: &'p mut Page<'o>,
    ghost ready: { Ready file.now links.now n blocks.now },
}

// A node to print: its row, the link that leads to it, and the levels left. A root, which no link leads to, has all levels.
#[derive(Clone, Copy)]
struct Node {
    row: usize,
    edge: Option<Edge>,
    levels: usize,
}

impl Printer<'_, '_, '_> {
    ghost use Rattle.std.specs.Prelude.{◌≡◌, ◌-◌, take};
    ghost use Rattle.mdf4.specs.Tree.{max_levels};
    ghost use Rattle.to_tree.specs.Ready.{rows_of};
    ghost use Rattle.to_tree.specs.Printing.{Fits, Same, Opens, Prints, node_of, roots_of};

    // The rows of the block table.
    fn rows(&self) -> &[[u64; BLOCK_ROW_WORDS]]
        ensures { result.now ≡ rows_of self.now.n self.now.blocks.now }
    {
        first_rows(self.blocks, self.n)
    }

    // A node's line, and its mark where it was not listed yet: the answer is then the block, whose links are to follow.
    fn open_node(&mut self, node: &Node) -> Result<Option<BlockInfo>, MdfError>
        requires { Fits self.old.n node.now }
        ensures same { Same self.old self.new }
        ensures bars { self.new.bars ≡ self.old.bars }
        ensures opened { Opens self.old node.now result self.new }
    {
        let block = BlockInfo::load(&self.rows()[node.row]);
        if node.levels == 0 {
            return Err(MdfError::TooDeep {
                place: block.offset,
                limit: MAX_LEVELS as u64,
            });
        }
        let mark = node.row * BLOCK_ROW_WORDS + TREE_MARK;
        let already = self.blocks[mark] != 0;
        let bars = &self.bars[..MAX_LEVELS - node.levels];
        put_node_line(self.page, self.file, &block, bars, node.edge, already);
        if already {
            return Ok(None);
        }
        self.blocks[mark] = 1;
        Ok(Some(block))
    }

    // A node's line, and below it the nodes that its links lead to, where it was not listed yet. No `for`: that a child is the last one is
    // known once the next one was looked for.
    fn render_tree_node(&mut self, node: &Node) -> Result<(), MdfError>
        requires { Fits self.old.n node.now }
        ensures same { Same self.old self.new }
        ensures bars { take (max_levels - node.now.levels) self.new.bars ≡ take (max_levels - node.now.levels) self.old.bars }
        ensures printed { Prints self.old result self.new (node_of self.old node.now) }
    {
        let Some(block) = self.open_node(node)? else {
            return Ok(());
        };
        let first = block.first_link as usize;
        let links = &self.links[first..first + block.link_count as usize];
        let mut child = next_child(self.rows(), links, 0);
        while let Some(c) = child {
            child = next_child(self.rows(), links, c.place + 1);
            self.bars[MAX_LEVELS - node.levels] = child.is_none();
            self.render_tree_node(&Node {
                row: c.row,
                edge: Some(Edge {
                    kind: block.kind,
                    place: c.place,
                }),
                levels: node.levels - 1,
            })?;
        }
        Ok(())
    }

    // Every row whose mark is still 0 is a root, in the order of the table.
    pub fn put_roots(&mut self) -> Result<(), MdfError>
        ensures same { Same self.old self.new }
        ensures printed { Prints self.old result self.new (roots_of self.old) }
    {
        for row in 0..self.n {
            if self.blocks[row * BLOCK_ROW_WORDS + TREE_MARK] == 0 {
                self.render_tree_node(&Node {
                    row,
                    edge: None,
                    levels: MAX_LEVELS,
                })?;
            }
        }
        Ok(())
    }
}
