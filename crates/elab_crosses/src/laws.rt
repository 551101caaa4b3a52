//! What holds of the bins of a cross. Each function does nothing: it stands for the law that it ensures.
ghost use Rattle.elab_crosses.specs.Promises.{AutomaticAreUnpicked, AxesArePoints, ProductsAreFew, SelectionsFit, BinsAreOfTheCross, BinsAreFew, BinsHaveAutomatic};

/// The automatic bins of a cross are those of the products that no declared bin selects, each once and in order.
pub fn automatic_bins_are_unpicked()
    ensures { AutomaticAreUnpicked }
{}

/// A cross has a point for each of its names, 16 at most: an item that is a point, or an implicit one.
pub fn axes_are_points()
    ensures { AxesArePoints }
{}

/// The points of a cross have 1,048,576 products at most.
pub fn products_of_a_cross_are_few()
    ensures { ProductsAreFew }
{}

/// A selection says for each coverage bin of a crossed point whether it is chosen.
pub fn selections_fit_the_points()
    ensures { SelectionsFit }
{}

/// Each bin of a cross has some product left, which no bin of the cross takes from it.
pub fn each_bin_has_something_left()
    ensures { BinsAreOfTheCross }
{}

/// A cross has 65,536 bins at most.
pub fn bins_of_a_cross_are_few()
    ensures { BinsAreFew }
{}

/// The automatic bins of a cross are those of the products that none of its bins selects: bins that are left out
/// select nothing else.
pub fn bins_left_out_select_nothing_else()
    ensures { BinsHaveAutomatic }
{}
