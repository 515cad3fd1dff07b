//! The pages of a server, which all its connections share.

ghost use Rattle.std.specs.Prelude.{◌≡◌, IfOk};

use http_pages::Pages;
use std::alloc::{AllocError, Global};
use std::marker::Model;
use std::sync::Arc;

/// The pages of a server. Who shares them shares the memory in which they lie.
#[derive(Drop)]
pub struct Site {
    pages: Arc<Pages, Global>,
}

impl Model for Site {
    ghost use Rattle.http_pages.specs.Pages.{Page};
    ghost use Rattle.std.specs.Prelude.{List};

    ghost Value = { List Page };

    ghost view = { λ s. s.pages.value };
}

impl Site {
    /// A site of these pages. An error says that memory was missing.
    pub fn of(alloc: Global, pages: Pages) -> Result<Site, AllocError>
        ensures { IfOk result (λ s. s ≡ pages) }
    {
        match Arc::new(alloc, pages) {
            Ok(pages) => Ok(Site { pages }),
            Err(_) => Err(AllocError),
        }
    }

    /// The same pages once more. An error says that memory was missing.
    pub fn share(&self) -> Result<Site, AllocError>
        ensures { IfOk result (λ s. s ≡ self.now) }
    {
        let pages = Arc::try_clone(&self.pages)?;
        Ok(Site { pages })
    }

    /// The pages.
    pub fn pages(&self) -> &Pages
        ensures { result.now ≡ self.now }
    {
        &self.pages
    }
}

/// The same pages, where there are any.
pub(crate) fn share(site: &Option<Site>) -> Result<Option<Site>, AllocError>
    ensures { IfOk result (λ s. s ≡ site.now) }
{
    match site {
        Some(site) => Ok(Some(site.share()?)),
        None => Ok(None),
    }
}
