// The router: which route a target has, and what it names.
ghost use Rattle.std.specs.Prelude.{◌≡◌, OnOk, Ok, option_map};
ghost use Rattle.matchit.specs.Route.{parse_route};
ghost use Rattle.matchit.specs.Router.{InsertsRead};
ghost use Rattle.adm_http.specs.Routes.{route_of, target_of, all_routes, IsRouteFree};

use crate::routes::{Route, Target, all_routes, named};
use matchit::{InsertError, Router};
use std::alloc::{AllocError, Global};

/// The routes.
#[derive(Drop)]
pub struct Routes {
    router: Router<Route>,
    ghost all: { router ≡ all_routes },
}

impl Routes {
    /// The routes. It fails only where memory runs out.
    pub fn new(alloc: Global) -> Result<Routes, AllocError> {
        let router = all_routes(alloc)?;
        Ok(Routes { router })
    }

    /// What the target names, if it has a route.
    pub(crate) fn target(&self, target: &str) -> Option<Target>
        ensures { result ≡ target_of target.now }
    {
        let (route, part) = self.find(target)?;
        named(route, part)
    }

    // The route of the target, and the part that its parameter takes.
    fn find<'t>(&self, target: &'t str) -> Option<(Route, &'t str)>
        ensures { option_map (λ found. (found.0, found.1.now)) result ≡ route_of target.now }
    {
        let Ok(found) = self.router.at(target) else {
            return None;
        };
        let part = match found.params.iter().next() {
            Some((_, part)) => part,
            None => "",
        };
        Some((*found.value, part))
    }
}

/// Adds a route that conflicts with none.
pub(crate) fn add(router: &mut Router<Route>, text: &str, route: Route) -> Result<(), AllocError>
    requires { IsRouteFree (parse_route text.now) router.old }
    ensures { OnOk result (InsertsRead (parse_route text.now) route router.old router.new (Ok tt)) }
{
    match router.insert(text, route) {
        Ok(()) => Ok(()),
        Err(InsertError::OutOfMemory) => Err(AllocError),
        Err(_) => unreachable!(),
    }
}
