//! The lines of the counts.

ghost use Rattle.std.specs.Prelude.{◌≡◌, ◌+◌, ◌*◌, ◌≤◌, [], ◌∷◌, length};
ghost use Rattle.pager_model.specs.PrintedText.{count_line, summary_text};
ghost use Rattle.report_text.specs.Lines.{Gains, GrowsBy, HasRoom};

use crate::text::Text;
use pager_model::Summary;

/// No more bytes are in the lines of the counts.
pub const SUMMARY: usize = 512;

/// Puts the lines of the counts: translations by size, promotions, demotions, broken reservations, hits and misses, frames; and the end.
pub fn put_summary_lines(text: &mut Text, summary: &Summary)
    requires { HasRoom SUMMARY text.old }
    ensures { Gains (summary_text summary.now) text.old text.new }
{
    put_counts(text, "tiles", &tile_counts(&summary.tiles));
    put_counts(text, "promotions", &[summary.promotions]);
    put_counts(text, "demotions", &[summary.demotions]);
    put_counts(text, "preemptions", &[summary.preemptions]);
    put_counts(text, "images", &[summary.hits, summary.misses]);
    put_counts(text, "frames", &frame_counts(summary));
    put_counts(text, "end", &[]);
}

/// A count for each size.
fn tile_counts(tiles: &[u32; 4]) -> [u64; 4]
    ensures { result ≡ tiles.now }
{
    let [page, small, middle, large] = *tiles;
    [
        u64::from(page),
        u64::from(small),
        u64::from(middle),
        u64::from(large),
    ]
}

/// How many frames are free, reserved and unused, and used.
fn frame_counts(summary: &Summary) -> [u64; 3]
    ensures { result ≡ summary.now.free ∷ summary.now.reserved ∷ summary.now.used ∷ [] }
{
    [
        u64::from(summary.free),
        u64::from(summary.reserved),
        u64::from(summary.used),
    ]
}

/// Puts a line of a name and its counts.
pub fn put_counts(text: &mut Text, name: &str, counts: &[u64])
    requires short { length name.now ≤ 20 }
    requires room { HasRoom (21 + 21 * length counts.now) text.old }
    ensures text { Gains (count_line name.now counts.now) text.old text.new }
    ensures few { GrowsBy (21 + 21 * length counts.now) text.old text.new }
{
    text.put_name(name);
    for count in counts {
        text.add_number(*count);
    }
    text.end();
}
