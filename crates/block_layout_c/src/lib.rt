// The entries for C and Rust to call: each does what the entry of the same name does, and its answer goes out as words.
// include/block_layout.h declares them, a function for each entry, as C has no generic ones.
#![tactic(auto)]

ghost use Rattle.std.specs.Prelude.{◌≡◌, [], length};
ghost use Rattle.mdf4.specs.Answers.{layout_exit, to_text_exit, to_tree_exit, path_exit, clear_list_exit, blank_exit, blank_recording, preview_exit};
ghost use Rattle.file_layout.specs.Tables.{lent};
ghost use Rattle.answers.specs.Entries.{answered, exit_with};
ghost use Rattle.block_layout_c.specs.Words.{answer_words, stored};

use block_layout::Accepted;
use blocks::error::MdfError;

// Words of an answer.
const ANSWER_WORDS: usize = 10;

// The words of an answer: number (0 where it is accepted), place, a and b; then the rows of the visited, block, link and gap tables
// and the bytes of the output in use, the words of a path or the number of the preview's counts, and the counts' total. C is lent them
// as words.
fn words_of(answer: Result<Accepted, MdfError>) -> [u64; 10]
    ensures { result ≡ answer_words (answered answer) }
{
    match answer {
        Ok(a) => [
            0,
            0,
            0,
            0,
            a.rows.visited as u64,
            a.rows.blocks as u64,
            a.rows.links as u64,
            a.rows.gaps as u64,
            a.bytes as u64,
            a.total,
        ],
        Err(e) => {
            let n = e.numbers();
            [n.number, n.place, n.a, n.b, 0, 0, 0, 0, 0, 0]
        }
    }
}

// The words of an answer go into the words lent for it: those that fit, and what is lent behind the tenth is left as it was.
fn store_answer(words: &mut [u64], answer: Result<Accepted, MdfError>)
    ensures { words.new ≡ stored (answer_words (answered answer)) words.old }
{
    let n = ANSWER_WORDS.min(words.len());
    words[..n].copy_from_slice(&words_of(answer)[..n]);
}

// The entry `layout`.
#[unsafe(no_mangle)]
pub extern "C" fn block_layout_c_layout(
    data: &[u8],
    visited: &mut [u64],
    blocks: &mut [u64],
    links: &mut [u64],
    gaps: &mut [u64],
    answer: &mut [u64],
)
    ensures tables { exit_with (layout_exit (lent visited.old blocks.old links.old gaps.old 0 0) «data».now).answer visited.new blocks.new links.new gaps.new [] [] ≡ layout_exit (lent visited.old blocks.old links.old gaps.old 0 0) «data».now }
    ensures answer { answer.new ≡ stored (answer_words (layout_exit (lent visited.old blocks.old links.old gaps.old 0 0) «data».now).answer) answer.old }
{
    let r = block_layout::layout(data, visited, blocks, links, gaps);
    store_answer(answer, r);
}

// The entry `to_text`.
#[unsafe(no_mangle)]
pub extern "C" fn block_layout_c_text(
    data: &[u8],
    visited: &mut [u64],
    blocks: &mut [u64],
    links: &mut [u64],
    gaps: &mut [u64],
    out: &mut [u8],
    answer: &mut [u64],
)
    ensures tables { exit_with (to_text_exit (lent visited.old blocks.old links.old gaps.old 0 (length out.old)) «data».now).answer visited.new blocks.new links.new gaps.new [] out.new ≡ to_text_exit (lent visited.old blocks.old links.old gaps.old 0 (length out.old)) «data».now }
    ensures answer { answer.new ≡ stored (answer_words (to_text_exit (lent visited.old blocks.old links.old gaps.old 0 (length out.old)) «data».now).answer) answer.old }
{
    let r = block_layout::to_text(data, visited, blocks, links, gaps, out);
    store_answer(answer, r);
}

// The entry `to_tree`.
#[unsafe(no_mangle)]
pub extern "C" fn block_layout_c_tree(
    data: &[u8],
    visited: &mut [u64],
    blocks: &mut [u64],
    links: &mut [u64],
    gaps: &mut [u64],
    out: &mut [u8],
    answer: &mut [u64],
)
    ensures tables { exit_with (to_tree_exit (lent visited.old blocks.old links.old gaps.old 0 (length out.old)) «data».now).answer visited.new blocks.new links.new gaps.new [] out.new ≡ to_tree_exit (lent visited.old blocks.old links.old gaps.old 0 (length out.old)) «data».now }
    ensures answer { answer.new ≡ stored (answer_words (to_tree_exit (lent visited.old blocks.old links.old gaps.old 0 (length out.old)) «data».now).answer) answer.old }
{
    let r = block_layout::to_tree(data, visited, blocks, links, gaps, out);
    store_answer(answer, r);
}

// The entry `path`.
#[unsafe(no_mangle)]
pub extern "C" fn block_layout_c_path(
    data: &[u8],
    visited: &mut [u64],
    blocks: &mut [u64],
    links: &mut [u64],
    gaps: &mut [u64],
    path: &mut [u64],
    offset: u64,
    answer: &mut [u64],
)
    ensures tables { exit_with (path_exit offset (lent visited.old blocks.old links.old gaps.old 0 (length path.old)) «data».now).answer visited.new blocks.new links.new gaps.new [] path.new ≡ path_exit offset (lent visited.old blocks.old links.old gaps.old 0 (length path.old)) «data».now }
    ensures answer { answer.new ≡ stored (answer_words (path_exit offset (lent visited.old blocks.old links.old gaps.old 0 (length path.old)) «data».now).answer) answer.old }
{
    let r = block_layout::path(data, visited, blocks, links, gaps, path, offset);
    store_answer(answer, r);
}

// The entry `clear_list`.
#[unsafe(no_mangle)]
pub extern "C" fn block_layout_c_clear(
    data: &[u8],
    visited: &mut [u64],
    blocks: &mut [u64],
    links: &mut [u64],
    gaps: &mut [u64],
    scratch: &mut [u64],
    out: &mut [u8],
    answer: &mut [u64],
)
    ensures tables { exit_with (clear_list_exit (lent visited.old blocks.old links.old gaps.old (length scratch.old) (length out.old)) «data».now).answer visited.new blocks.new links.new gaps.new scratch.new out.new ≡ clear_list_exit (lent visited.old blocks.old links.old gaps.old (length scratch.old) (length out.old)) «data».now }
    ensures answer { answer.new ≡ stored (answer_words (clear_list_exit (lent visited.old blocks.old links.old gaps.old (length scratch.old) (length out.old)) «data».now).answer) answer.old }
{
    let r = block_layout::clear_list(data, visited, blocks, links, gaps, scratch, out);
    store_answer(answer, r);
}

// The entry `blank`: the recording is lent to be written.
#[unsafe(no_mangle)]
pub extern "C" fn block_layout_c_blank(
    data: &mut [u8],
    visited: &mut [u64],
    blocks: &mut [u64],
    links: &mut [u64],
    gaps: &mut [u64],
    scratch: &mut [u64],
    answer: &mut [u64],
)
    ensures tables { exit_with (blank_exit (lent visited.old blocks.old links.old gaps.old (length scratch.old) 0) «data».old).answer visited.new blocks.new links.new gaps.new scratch.new [] ≡ blank_exit (lent visited.old blocks.old links.old gaps.old (length scratch.old) 0) «data».old }
    ensures answer { answer.new ≡ stored (answer_words (blank_exit (lent visited.old blocks.old links.old gaps.old (length scratch.old) 0) «data».old).answer) answer.old }
    ensures recording { «data».new ≡ blank_recording (lent visited.old blocks.old links.old gaps.old (length scratch.old) 0) «data».old }
{
    let r = block_layout::blank(data, visited, blocks, links, gaps, scratch);
    store_answer(answer, r);
}

// The entry `preview`.
#[unsafe(no_mangle)]
pub extern "C" fn block_layout_c_preview(
    data: &[u8],
    visited: &mut [u64],
    blocks: &mut [u64],
    links: &mut [u64],
    gaps: &mut [u64],
    scratch: &mut [u64],
    counts: &mut [u64],
    answer: &mut [u64],
)
    ensures tables { exit_with (preview_exit (lent visited.old blocks.old links.old gaps.old (length scratch.old) (length counts.old)) «data».now).answer visited.new blocks.new links.new gaps.new scratch.new counts.new ≡ preview_exit (lent visited.old blocks.old links.old gaps.old (length scratch.old) (length counts.old)) «data».now }
    ensures answer { answer.new ≡ stored (answer_words (preview_exit (lent visited.old blocks.old links.old gaps.old (length scratch.old) (length counts.old)) «data».now).answer) answer.old }
{
    let r = block_layout::preview(data, visited, blocks, links, gaps, scratch, counts);
    store_answer(answer, r);
}
