//! Made pages, with numbers of another program.
use crate::{made_page_has_few_components, make_page};
use std::test::Fail;

#[test]
fn made_pages_have_the_black_pixels_of_their_seeds(rt: HostRuntime) -> Result<(), Fail> {
    made_page_has_few_components();
    for (seed, black) in [
        (0, 1_630_793),
        (1, 1_621_751),
        (7, 1_626_234),
        (18_446_744_073_709_551_615, 1_639_546),
    ] {
        let page = make_page(rt.alloc(), seed)?;
        assert!(rt; page.is_whole());
        assert!(rt; page.width() == 2480 && page.height() == 3508);
        assert_eq!(rt; page.black(), black, "seed {seed}");
    }
    Ok(())
}
