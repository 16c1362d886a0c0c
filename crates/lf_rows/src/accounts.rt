/// Accounts in cowns, and payments between them. It is `examples/accounts.lf`.
pub const ACCOUNTS: &str = "def account(n):
    r = Region()
    r.balance = n
    return Cown(move r)
def pay(a, b, n):
    when a, b with n:
        a.value.balance = a.value.balance - n
        b.value.balance = b.value.balance + n
x = account(100)
y = account(50)
pay(x, y, 30)
pay(y, x, 10)
pay(x, y, 6)
when x, y:
    print(x.value.balance, y.value.balance)
";
