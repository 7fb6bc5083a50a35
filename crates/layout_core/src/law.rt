//! The law of the runs: what they write is one thing.
ghost use Rattle.layout_core.specs.Unique.{LayoutIsUnique, OutputIsUnique, PictureDecidesOutput};

use command_words::words_have_one_plan;
use components::kept_is_unique;
use line_search::lines_are_unique;
use pbm_reader::{each_input_is_judged, equal_pictures_are_one_page};
use reading_order::order_and_areas_are_unique;
use run_smear::smear_is_unique;
use whitespace_cover::cover_is_unique;
use word_split::words_are_unique;
use xy_cut::cells_are_unique;

/// States three laws, and does nothing: a page has one layout by all plans with the same rectangles, image, seed and flags; two runs
/// that end with status 0 write the same for one input where their words have such plans; and so they do for two inputs that
/// spell the same pictures, one by one. So the bytes of `layout` are those of `layout1`, whatever the number of workers and their
/// schedule, and equal pictures have equal documents, whatever their form, comments, white bytes and padding bits are.
pub fn output_is_unique()
    ensures one_layout { LayoutIsUnique }
    ensures one_output { OutputIsUnique }
    ensures one_document { PictureDecidesOutput }
{
    each_input_is_judged();
    equal_pictures_are_one_page();
    words_have_one_plan();
    kept_is_unique();
    cover_is_unique();
    lines_are_unique();
    order_and_areas_are_unique();
    words_are_unique();
    cells_are_unique();
    smear_is_unique();
}
