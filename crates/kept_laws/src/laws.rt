// The laws of guaranteed seats. Each is the contract of a function that does nothing.
ghost use Rattle.kept_laws.specs.Laws.{ExactlyKept, GuaranteedNeverFall, KeptAdmitNoFewer, KeptChooseWell, KeptGrow, NoNeedNoChange, NoOrderNoneKept, NoOrdersNoChange, OneOrderOneSeat, OrdersSeats, StepsStay};

/// With guaranteed seats, too, the programmes of a matrix choose well.
pub fn choose_well()
    ensures { KeptChooseWell }
{
    open_then_category::laws::chosen_well();
}

/// From more people they admit no fewer.
pub fn admit_no_fewer()
    ensures { KeptAdmitNoFewer }
{
    open_then_category::laws::chosen_well();
    open_then_category::laws::no_fewer_from_more();
}

/// With no fewer seats and guarantees they admit everybody whom they admitted before.
pub fn grow()
    ensures { KeptGrow }
{
    open_then_category::laws::chosen_well();
    open_then_category::laws::grows_with_seats();
}

/// Who is guaranteed a seat has it, or one further up the own list.
pub fn guaranteed_never_fall()
    ensures { GuaranteedNeverFall }
{
    open_then_category::laws::chosen_well();
}

/// Every step chooses as ever, from all who apply.
pub fn steps_stay()
    ensures { StepsStay }
{}

/// Who is kept beyond the seats is exactly who is guaranteed there, applies and is not chosen.
pub fn exactly_kept()
    ensures { ExactlyKept }
{}

/// Without need nothing changes.
pub fn no_need_no_change()
    ensures { NoNeedNoChange }
{
    open_then_category::laws::chosen_well();
}

/// Without orders the best rounds are those without guarantees.
pub fn no_orders_no_change()
    ensures { NoOrdersNoChange }
{
    open_then_category::laws::chosen_well();
    open_then_category::laws::grows_with_seats();
}

/// Without an order nobody is newly kept beyond the seats.
pub fn no_order_none_kept()
    ensures { NoOrderNoneKept }
{
    open_then_category::laws::chosen_well();
    open_then_category::laws::grows_with_seats();
}

/// An order makes at most one seat more beyond those of the programmes.
pub fn one_order_one_seat()
    ensures { OneOrderOneSeat }
{
    open_then_category::laws::chosen_well();
    open_then_category::laws::no_fewer_from_more();
}

/// Orders make at most as many.
pub fn orders_seats()
    ensures { OrdersSeats }
{
    open_then_category::laws::chosen_well();
    open_then_category::laws::no_fewer_from_more();
}
