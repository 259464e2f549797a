//! Pages that a commit writes, in ascending order.
ghost use Rattle.std.specs.Prelude.{◌≡◌, ◌++◌, IfOk, OnOk};
ghost use Rattle.pager.specs.Order.{merged};

use page::SharedPage;
use std::alloc::{AllocError, Global};

/// Puts these pages behind the others.
fn put_all(pages: &mut Vec<SharedPage>, more: &[SharedPage]) -> Result<(), AllocError>
    ensures { OnOk result (pages.new.items ≡ pages.old.items ++ more.now) }
{
    for shared in more {
        pages.push(shared.clone_ref()?)?;
    }
    Ok(())
}

/// Both of these as one, in ascending order where each of them is.
pub(crate) fn merge(
    alloc: Global,
    one: &[SharedPage],
    other: &[SharedPage],
) -> Result<Vec<SharedPage>, AllocError>
    ensures { IfOk result (λ v. v.items ≡ merged one.now other.now) }
{
    let mut pages = Vec::new(alloc);
    let mut i = 0;
    let mut j = 0;
    while i < one.len() && j < other.len() {
        if one[i].image().page < other[j].image().page {
            pages.push(one[i].clone_ref()?)?;
            i += 1;
        } else {
            pages.push(other[j].clone_ref()?)?;
            j += 1;
        }
    }
    put_all(&mut pages, &one[i..])?;
    put_all(&mut pages, &other[j..])?;
    Ok(pages)
}
