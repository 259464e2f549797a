//! Pages among those that a turn made.
ghost use Rattle.std.specs.Prelude.{◌≡◌, ◌≢◌, Result, Ok, MatchOption};
ghost use Rattle.std.specs.List.{AllByRecursion};
ghost use Rattle.page.specs.Format.{PageModel};
ghost use Rattle.page.specs.declared.page_fault.PageFault.{PageFault};
ghost use Rattle.roots.specs.Turn.{made_or};
ghost use Rattle.pager.specs.Order.{IsOrderOf, StandsAt};

use page::SharedPage;

/// Where the page of this number stands in the order of the pages that were made, or would stand.
pub(crate) fn find_place(made: &[SharedPage], places: &[u32], page: u32) -> usize
    requires { IsOrderOf made.now places.now }
    ensures { StandsAt made.now places.now page result }
{
    let mut from = 0;
    let mut to = places.len();
    while from < to {
        let mid = from + (to - from) / 2;
        let shared = &made[places[mid] as usize];
        if shared.image().page < page {
            from = mid + 1;
        } else {
            to = mid;
        }
    }
    from
}

/// The page of this number, among those that were made.
pub(crate) fn find_page<'a>(
    made: &'a [SharedPage],
    places: &[u32],
    page: u32,
) -> Option<&'a SharedPage>
    requires { IsOrderOf made.now places.now }
    ensures { MatchOption result
        (AllByRecursion (λ (model : PageModel). model.page ≢ page) made.now)
        (λ shared. (other : Result PageModel PageFault)
        → made_or made.now page other ≡ Ok shared.now) }
{
    let at = find_place(made, places, page);
    if at == places.len() {
        return None;
    }
    let shared = &made[places[at] as usize];
    if shared.image().page == page {
        Some(shared)
    } else {
        None
    }
}
